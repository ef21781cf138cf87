//! The cones of the places that a walk comes to.

ghost use Rattle.std.specs.Prelude.{◌≡◌, IfOk, OnOk};
ghost use Rattle.decide_nodes.specs.Traced.{IsNextCone};
ghost use Rattle.decide_cone.specs.Cones.{AreRightOf};
ghost use Rattle.decide_lanes.specs.Lanes.{IsLookedAt};
ghost use Rattle.wave_proved.specs.Contents.{Contents};
ghost use Rattle.wave_proved.specs.Token.{IsLineNext};

use crate::tracer::Tracer;
use base_lists::Memory;
use decide_lanes::Lanes;
use decide_nodes::Cone;
use std::alloc::Global;
use wave_proved::Wave;

/// The lanes of a walk with their graph, and a tracer for when that isn't kept.
#[derive(Drop)]
pub struct Cones {
    pub tracer: Tracer,
    pub lanes: Lanes,
}

impl Cones {
    /// Of no place anything is known. Takes what new lanes take.
    pub fn new(alloc: Global) -> Result<Cones, Memory>
        ensures { IfOk result (λ cones. (c : Contents) → AreRightOf c cones) }
    {
        Ok(Cones {
            tracer: Tracer::new(alloc),
            lanes: Lanes::new(alloc)?,
        })
    }

    /// The cone of the next place, a Line place that the lanes have looked at: from their graph, or where that isn't
    /// kept, traced. Takes the memory of the cone, and of the search in the graph or of a trace.
    pub fn cone(&mut self, alloc: Global, wave: &Wave<'_>) -> Result<Cone, Memory>
        requires class { IsLineNext wave.now }
        requires right { AreRightOf wave.now self.old }
        requires looked { IsLookedAt wave.now self.old.lanes }
        ensures cone { IfOk result (λ cone. IsNextCone wave.now cone.nodes) }
        ensures right { OnOk result (AreRightOf wave.now self.new) }
        ensures lanes { OnOk result (self.new.lanes ≡ self.old.lanes) }
    {
        match self.lanes.cone(alloc, wave)? {
            Some(cone) => Ok(cone),
            None => self.tracer.trace(alloc, wave),
        }
    }
}
