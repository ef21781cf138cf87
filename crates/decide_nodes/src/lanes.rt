//! Lanes, and the fillings that they stand for.

ghost use Rattle.std.specs.Prelude.{◌≡◌, ◌<◌, ◌++◌, ◌∷◌, [], IfOk, OnOk, if◌then◌else◌};
ghost use Rattle.decide_nodes.specs.Lanes.{HasLanes, lane_of};
ghost use Rattle.decide_nodes.specs.Nodes.{chosen};

use crate::lane_bits::LaneBits;
use base_lists::Memory;
use design_circuit::Place;
use std::alloc::Global;

/// Lanes of some, or 0 past the last.
pub fn lane_bits_at(lane_table: &[LaneBits], position: usize) -> LaneBits
    ensures { HasLanes result (λ lane. lane_of lane_table.now lane position) }
{
    if position < lane_table.len() {
        lane_table[position]
    } else {
        LaneBits::zeros()
    }
}

/// The sources whose lanes have a 1 in a lane.
pub fn chosen_places(
    alloc: Global,
    sources: &[Place],
    given: &[LaneBits],
    lane: u32,
) -> Result<Vec<Place>, Memory>
    requires { lane < 256 }
    ensures { IfOk result (λ places. places.items ≡ chosen sources.now (lane_of given.now lane)) }
{
    let mut places = Vec::new(alloc);
    'sources: for source in 0..sources.len() {
        let is_chosen = lane_bits_at(given, source).in_lane(lane);
        add_if(&mut places, sources[source], is_chosen)?;
    }
    Ok(places)
}

fn add_if(places: &mut Vec<Place>, place: Place, is_chosen: bool) -> Result<(), Memory>
    ensures { OnOk result (places.new.items ≡ places.old.items ++ (if is_chosen then place ∷ [] else [])) }
{
    if is_chosen {
        places.push(place)?;
    }
    Ok(())
}
