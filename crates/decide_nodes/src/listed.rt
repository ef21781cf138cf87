//! What a filling gives the sources of a cone.

ghost use Rattle.std.specs.Prelude.{◌≡◌, IfOk, map};
ghost use Rattle.decide_nodes.specs.Listed.{HasSpots, listed_lanes};
ghost use Rattle.decide_nodes.specs.Nodes.{is_listed};

use crate::lane_bits::LaneBits;
use base_lists::Memory;
use design_circuit::Place;
use std::alloc::Global;
use std::collections::BTreeSet;

/// For each source lanes whose first lane has the bit of the source in a filling.
pub fn listed_table(
    alloc: Global,
    filling: &[Place],
    sources: &[Place],
) -> Result<Vec<LaneBits>, Memory>
    ensures { IfOk result (λ lane_table. lane_table.items ≡ map (listed_lanes filling.now) sources.now) }
{
    let spots = spots_of(alloc, filling)?;
    let mut lane_table = Vec::with_capacity(alloc, sources.len())?;
    'sources: for source in sources {
        let bit = is_in(&spots, *source, filling);
        lane_table.push(LaneBits::new([u64::from(bit), 0, 0, 0]))?;
    }
    Ok(lane_table)
}

fn spots_of(alloc: Global, filling: &[Place]) -> Result<BTreeSet<(u32, u32)>, Memory>
    ensures { IfOk result (HasSpots filling.now) }
{
    let spots = filling
        .iter()
        .map(|place| (place.step, place.net))
        .collect(alloc)?;
    Ok(spots)
}

fn is_in(spots: &BTreeSet<(u32, u32)>, place: Place, filling: &[Place]) -> bool
    requires { HasSpots filling.now spots.now }
    ensures { result ≡ is_listed filling.now place }
{
    spots.contains(&(place.step, place.net))
}
