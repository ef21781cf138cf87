//! Room for the lanes of a cone's nodes, which calls share.

ghost use Rattle.std.specs.Prelude.{◌≡◌, IfOk, length};
ghost use Rattle.decide_nodes.specs.Lanes.{HasLanes, root_in_lane};

use crate::cone::Cone;
use crate::lane_bits::LaneBits;
use base_lists::Memory;
use std::alloc::Global;
use std::marker::Model;

/// Room for the lanes of each node.
#[derive(Drop)]
pub struct ConeLanes {
    lane_table: Vec<LaneBits>,
}

impl Model for ConeLanes {
    ghost use Rattle.std.specs.Prelude.{length};
    ghost use Rattle.decide_nodes.specs.Lanes.{ConeLanesView};

    ghost Value = { ConeLanesView };

    ghost view = { λ lane_table. record { nodes = length lane_table.lane_table.items } };
}

impl ConeLanes {
    /// Room for the lanes of a cone. Takes 32 bytes a node.
    pub fn new(alloc: Global, cone: &Cone) -> Result<ConeLanes, Memory>
        ensures { IfOk result (λ lane_table. lane_table.nodes ≡ length cone.now.nodes) }
    {
        let lane_table = vec![in alloc; LaneBits::zeros(); cone.nodes().len()]?;
        Ok(ConeLanes { lane_table })
    }

    /// The lanes of the root, where source i has given[i], or 0 where nothing is given.
    pub fn root(&mut self, cone: &Cone, given: &[LaneBits]) -> LaneBits
        requires room { self.old.nodes ≡ length cone.now.nodes }
        ensures lanes { HasLanes result (root_in_lane cone.now.nodes given.now) }
        ensures room { self.new.nodes ≡ self.old.nodes }
    {
        cone.root_lanes(given, self.lane_table.as_mut_slice())
    }
}
