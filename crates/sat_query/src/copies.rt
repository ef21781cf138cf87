//! Copies of clauses.

ghost use Rattle.std.specs.Prelude.{◌≡◌, IfOk};

use base_lists::Memory;
use sat_proof::Clause;
use std::alloc::Global;

/// Clauses once more. Takes four bytes a literal, and some for each clause.
pub fn copied(alloc: Global, clauses: &[Clause]) -> Result<Vec<Clause>, Memory>
    ensures { IfOk result (λ copies. copies.items ≡ clauses.now) }
{
    let mut copies = Vec::with_capacity(alloc, clauses.len())?;
    'clauses: for clause in clauses {
        copies.push(copy_of(alloc, clause)?)?;
    }
    Ok(copies)
}

/// A clause once more. Takes four bytes a literal.
pub fn copy_of(alloc: Global, clause: &Clause) -> Result<Clause, Memory>
    ensures { IfOk result (λ copy. copy ≡ clause.now) }
{
    let literals = clause.as_slice().to_vec(alloc)?;
    Ok(Clause::from_vec(literals))
}
