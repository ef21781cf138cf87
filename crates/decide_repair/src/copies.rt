//! Clauses once more, and how much memory they take.

ghost use Rattle.std.specs.Prelude.{◌≡◌, IfOk};
ghost use Rattle.decide_repair.specs.Kept as spec;

use base_lists::Memory;
use sat_proof::Clause;
use std::alloc::Global;

/// Clauses once more. Takes their memory.
pub fn copied(alloc: Global, clauses: &[Clause]) -> Result<Vec<Clause>, Memory>
    ensures { IfOk result (λ copies. copies.items ≡ clauses.now) }
{
    let mut copies = Vec::with_capacity(alloc, clauses.len())?;
    'clauses: for place in 0..clauses.len() {
        copies.push(copy_of(alloc, &clauses[place])?)?;
    }
    Ok(copies)
}

fn copy_of(alloc: Global, clause: &Clause) -> Result<Clause, Memory>
    ensures { IfOk result (λ copy. copy ≡ clause.now) }
{
    let literals = clause.as_slice().to_vec(alloc)?;
    Ok(Clause::from_vec(literals))
}

/// A number that equal clauses share, and others mostly don't.
#[tactic(auto, using(std::proofs::lemmas::List::Sums::fold_push))]
pub fn code_of(clauses: &[Clause]) -> u64
    ensures { result ≡ spec.code_of clauses.now }
{
    let mut code = 0;
    'clauses: for clause in clauses {
        code = with_clause(code, clause.as_slice());
    }
    code
}

#[tactic(auto, using(std::proofs::lemmas::List::Sums::fold_push), unfolding(crate::specs::Kept::with_clause))]
fn with_clause(before: u64, literals: &[i32]) -> u64
    ensures { result ≡ spec.with_clause before literals.now }
{
    let mut code = mixed(before, 0);
    'literals: for literal in literals {
        code = with_literal(code, *literal);
    }
    code
}

#[tactic(auto, unfolding(crate::specs::Kept::with_literal))]
fn with_literal(code: u64, literal: i32) -> u64
    ensures { result ≡ spec.with_literal code literal }
{
    let sign = u64::from(literal.is_negative());
    mixed(code, 2 * u64::from(literal.unsigned_abs()) + sign)
}

#[tactic(auto, unfolding(crate::specs::Kept::mixed))]
fn mixed(code: u64, word: u64) -> u64
    ensures { result ≡ spec.mixed code word }
{
    (code ^ word)
        .wrapping_mul(0x9e37_79b9_7f4a_7c15)
        .rotate_left(29)
}

/// How many bytes clauses take, about: four for each literal, and 64 for each clause.
#[tactic(auto, using(std::proofs::lemmas::List::Sums::fold_push))]
pub fn bytes_of(clauses: &[Clause]) -> usize
    ensures { result ≡ spec.bytes_of clauses.now }
{
    let mut bytes = 0;
    'clauses: for clause in clauses {
        bytes = with_bytes(bytes, clause.as_slice());
    }
    bytes
}

#[tactic(auto, unfolding(crate::specs::Kept::with_bytes))]
fn with_bytes(bytes: usize, literals: &[i32]) -> usize
    ensures { result ≡ spec.with_bytes bytes literals.now }
{
    bytes
        .saturating_add(literals.len().saturating_mul(4))
        .saturating_add(64)
}
