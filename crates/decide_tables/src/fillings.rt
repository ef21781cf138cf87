//! The filling of a number.

ghost use Rattle.std.specs.Prelude.{◌≡◌, ◌<◌, ◌≤◌, ◌++◌, ◌∷◌, [], IfOk, OnOk, length, if◌then◌else◌};
ghost use Rattle.decide_nodes.specs.Nodes.{number_bits};
ghost use Rattle.decide_tables.specs.Tables.{filling_by};

use base_lists::Memory;
use design_circuit::Place;
use std::alloc::Global;

/// The places of a list at whose positions a number has a 1. Takes 8 bytes for each of them.
pub fn places_by(alloc: Global, list: &[Place], number: usize) -> Result<Vec<Place>, Memory>
    requires { length list.now ≤ 16 }
    ensures { IfOk result (λ places. places.items ≡ filling_by list.now number) }
{
    let mut places = Vec::new(alloc);
    'places: for index in 0..list.len() {
        add_if(&mut places, list[index], bit_of(number, index))?;
    }
    Ok(places)
}

fn bit_of(number: usize, index: usize) -> bool
    requires { index < 64 }
    ensures { result ≡ number_bits number index }
{
    (number >> index) & 1 == 1
}

fn add_if(places: &mut Vec<Place>, place: Place, is_listed: bool) -> Result<(), Memory>
    ensures { OnOk result (places.new.items ≡ places.old.items ++ (if is_listed then place ∷ [] else [])) }
{
    if is_listed {
        places.push(place)?;
    }
    Ok(())
}
