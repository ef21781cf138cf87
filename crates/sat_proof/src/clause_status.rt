//! The status of a clause under marks, each of which says that its literal is false. Linear in the clause.

ghost use Rattle.std.specs.Prelude.{◌≡◌, ◌<◌, ◌↔◌, length, IsTrue};
ghost use Rattle.std.specs.List.{All};
ghost use Rattle.sat_proof.specs.Code.{HasRoom, IsConsistent, is_false};
ghost use Rattle.sat_proof.specs.Status.{IsStatus, IsValue, literal_at};

use crate::code::{code, opposite};

/// The status of a clause: a literal is true; all are false; one is open, at a place, and the others are false; two are
/// open, at two places.
pub(crate) enum Status {
    Met,
    False,
    Unit(usize),
    Two(usize, usize),
}

pub(crate) fn status_of(marks: &[bool], literals: &[i32]) -> Status
    requires consistent { IsConsistent marks.now }
    requires room { All (HasRoom (length marks.now)) literals.now }
    ensures { IsStatus marks.now literals.now result }
{
    let mut open: Option<usize> = None;
    for k in 0..literals.len() {
        match value_at(marks, literals, k) {
            Value::True => return Status::Met,
            Value::False => {}
            Value::Open => match open {
                None => open = Some(k),
                Some(j) => {
                    if !are_equal(literals, j, k) {
                        return Status::Two(j, k);
                    }
                }
            },
        }
    }
    match open {
        None => Status::False,
        Some(k) => Status::Unit(k),
    }
}

/// The value of a literal.
pub enum Value {
    True,
    False,
    Open,
}

/// The value of the literal at a place.
pub fn value_at(marks: &[bool], literals: &[i32], k: usize) -> Value
    requires below { k < length literals.now }
    requires room { HasRoom (length marks.now) (literal_at literals.now k) }
    ensures { IsValue marks.now (literal_at literals.now k) result }
{
    let literal = literals[k];
    if marks[code(literal)] {
        Value::False
    } else if marks[opposite(literal)] {
        Value::True
    } else {
        Value::Open
    }
}

/// Whether the literal at a place is false.
pub fn is_marked(marks: &[bool], literals: &[i32], k: usize) -> bool
    requires below { k < length literals.now }
    requires room { HasRoom (length marks.now) (literal_at literals.now k) }
    ensures { result ≡ is_false marks.now (literal_at literals.now k) }
{
    marks[code(literals[k])]
}

/// A clause may hold a literal more than once.
fn are_equal(literals: &[i32], j: usize, k: usize) -> bool
    requires j { j < length literals.now }
    requires k { k < length literals.now }
    ensures { IsTrue result ↔ (literal_at literals.now j ≡ literal_at literals.now k) }
{
    literals[j] == literals[k]
}
