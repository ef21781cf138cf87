//! The laws of graphs. These functions do nothing: what each ensures is a law, proved here once.

ghost use Rattle.decide_graph.specs.Bits.{WorldLaw};
ghost use Rattle.decide_graph.specs.Graph.{BeginLaw, StayLaw};
ghost use Rattle.decide_graph.specs.NodeRoots.{GrowLaw};

/// No nodes are a graph of every wave.
pub fn graphs_begin()
    ensures { BeginLaw }
{}

/// A graph of a wave is one of the wave with a place more, whatever is written there.
pub fn graphs_stay()
    ensures { StayLaw }
{}

/// With the node of a place after those of the others it is a graph.
pub fn graphs_grow()
    ensures { GrowLaw }
{}

/// The nodes have the bits of their places in the world of a filling.
pub fn nodes_give_worlds()
    ensures { WorldLaw }
{}
