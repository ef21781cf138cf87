//! Whether values are a model of a formula: they make each clause true.

ghost use Rattle.std.specs.Prelude.{◌≡◌, ◌↔◌, IsTrue};
ghost use Rattle.std.specs.List.{All};
ghost use Rattle.sat_proof.specs.Assignment.{IsMet, IsModel, assigned, value_of};

use sat_proof::{Clause, Cnf, Model};

/// Whether values are a model of a formula: one for each variable, by which each clause has a true literal.
pub fn is_model(query: &Cnf, model: &Model) -> bool
    ensures { IsTrue result ↔ IsModel query.now.vars query.now.clauses model.now }
{
    let values = model.as_slice();
    values.len() == query.vars as usize && are_met(values, query.clauses.as_slice())
}

fn are_met(values: &[bool], clauses: &[Clause]) -> bool
    ensures { IsTrue result ↔ All (IsMet (assigned values.now)) clauses.now }
{
    'clauses: for place in 0..clauses.len() {
        if !is_met(values, clauses[place].as_slice()) {
            return false;
        }
    }
    true
}

fn is_met(values: &[bool], literals: &[i32]) -> bool
    ensures { IsTrue result ↔ IsMet (assigned values.now) literals.now }
{
    'literals: for literal in literals {
        if is_true(values, *literal) {
            return true;
        }
    }
    false
}

fn is_true(values: &[bool], literal: i32) -> bool
    ensures { result ≡ value_of (assigned values.now) literal }
{
    if literal > 0 {
        value_at(values, (literal - 1) as usize)
    } else if literal < 0 {
        !value_at(values, (-(literal + 1)) as usize)
    } else {
        false
    }
}

fn value_at(values: &[bool], place: usize) -> bool
    ensures { result ≡ assigned values.now place }
{
    place < values.len() && values[place]
}
