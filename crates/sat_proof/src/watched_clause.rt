//! A clause one of whose two watched literals became false: it watches another literal, or the other watched one
//! becomes true, or it is false. Linear in the clause.

ghost use Rattle.std.specs.Prelude.{◌≡◌, ◌<◌, ◌↔◌, true, false, length, IsTrue};
ghost use Rattle.std.specs.List.{All};
ghost use Rattle.sat_proof.specs.Closed.{IsFalse};
ghost use Rattle.sat_proof.specs.Code.{HasRoom};
ghost use Rattle.sat_proof.specs.Guard.{IsSought, IsAction, IsHandled};
ghost use Rattle.sat_proof.specs.Status.{literal_at};
ghost use Rattle.sat_proof.specs.Trail.{HasMarks, StaysOver, held};
ghost use Rattle.sat_proof.specs.Watch.{IsPair, watched};

use crate::clause_status::{Value, is_marked, value_at};
use crate::trail::Trail;
use crate::watch::Watch;

/// The other watched literal is true; the literal at a place isn't false, and is to be watched; only the other watched
/// literal isn't false; all literals are.
pub(crate) enum Action {
    Rests,
    Moves(usize),
    Forces,
    Fails,
}

/// Looks at the clause of an entry; whether all its literals are false.
pub(crate) fn handle(
    trail: &mut Trail,
    watch: &mut Watch,
    literals: &[i32],
    entry: usize,
    twin: usize,
) -> bool
    requires room { HasMarks trail.old literals.now }
    requires pair { IsPair literals.now (watched watch.old entry) (watched watch.old twin) }
    requires room_twin { HasRoom (length trail.old.marks.items) (watched watch.old twin) }
    requires entry { entry < length watch.old.nexts.items }
    requires twin { twin < length watch.old.nexts.items }
    ensures conflict { result ≡ true → IsFalse (held trail.old) literals.now }
    ensures same { result ≡ true → watch.new ≡ watch.old }
    ensures turn { result ≡ false → IsHandled trail.old trail.new watch.old watch.new literals.now entry twin }
    ensures size { length watch.new.heads.items ≡ length watch.old.heads.items }
    ensures over { StaysOver trail.old trail.new }
    ensures read { trail.new.read ≡ trail.old.read }
{
    match choose_action(&trail.marks, watch.literals.as_slice(), twin, literals) {
        Action::Rests => false,
        Action::Moves(k) => {
            watch.move_to(entry, literals, k);
            false
        }
        Action::Forces => {
            trail.affirm(watch.literals.as_slice(), twin);
            false
        }
        Action::Fails => true,
    }
}

/// What is to be done with a clause whose other watched literal stands at a place of `others`.
fn choose_action(marks: &[bool], others: &[i32], twin: usize, literals: &[i32]) -> Action
    requires twin { twin < length others.now }
    requires room_twin { HasRoom (length marks.now) (literal_at others.now twin) }
    requires room { All (HasRoom (length marks.now)) literals.now }
    ensures { IsAction marks.now literals.now (literal_at others.now twin) result }
{
    match value_at(marks, others, twin) {
        Value::True => Action::Rests,
        Value::False => match seek(marks, others, twin, literals) {
            Some(k) => Action::Moves(k),
            None => Action::Fails,
        },
        Value::Open => match seek(marks, others, twin, literals) {
            Some(k) => Action::Moves(k),
            None => Action::Forces,
        },
    }
}

/// The place of a literal that isn't false, and differs from the other watched one.
fn seek(marks: &[bool], others: &[i32], twin: usize, literals: &[i32]) -> Option<usize>
    requires twin { twin < length others.now }
    requires room { All (HasRoom (length marks.now)) literals.now }
    ensures { IsSought marks.now literals.now (literal_at others.now twin) result }
{
    for k in 0..literals.len() {
        if !is_marked(marks, literals, k) {
            if !are_equal(literals, k, others, twin) {
                return Some(k);
            }
        }
    }
    None
}

fn are_equal(literals: &[i32], k: usize, others: &[i32], twin: usize) -> bool
    requires k { k < length literals.now }
    requires twin { twin < length others.now }
    ensures { IsTrue result ↔ (literal_at literals.now k ≡ literal_at others.now twin) }
{
    literals[k] == others[twin]
}
