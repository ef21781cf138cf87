//! Copies of formulas and of places.

ghost use Rattle.std.specs.Prelude.{◌≡◌, IfOk};

use base_lists::{Items, Memory};
use design_circuit::Place;
use sat_proof::Cnf;
use sat_query::copies::copied;
use std::alloc::Global;

/// A formula once more. Takes four bytes a literal, and some for each clause.
pub fn copy_of(alloc: Global, cnf: &Cnf) -> Result<Cnf, Memory>
    ensures { IfOk result (λ copy. copy ≡ cnf.now) }
{
    let clauses = copied(alloc, cnf.clauses.as_slice())?;
    Ok(Cnf {
        vars: cnf.vars,
        clauses: Items::from_vec(clauses),
    })
}

/// Places once more. Takes 8 bytes for each.
pub fn copy_of_places(alloc: Global, places: &[Place]) -> Result<Vec<Place>, Memory>
    ensures { IfOk result (λ copies. copies.items ≡ places.now) }
{
    let mut copies = Vec::with_capacity(alloc, places.len())?;
    'places: for place in places {
        copies.push(*place)?;
    }
    Ok(copies)
}
