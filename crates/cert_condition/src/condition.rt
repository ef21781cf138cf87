//! Conditions under way: the list so far, and the turns that made it.

ghost use Rattle.std.specs.Prelude.{◌≡◌, ◌<◌, ◌≤◌, ◌+◌, ◌++◌, ◌∷◌, [], IfOk, length};
ghost use Rattle.std.specs.Vec.{vec_capacity, vec_len};
ghost use Rattle.sat_proof.specs.Assignment.{IsModel};
ghost use Rattle.sat_proof.specs.Log.{AreFresh, Fit, Refutes};
ghost use Rattle.cert_condition.specs.View.{FindsNext, IsBegun, IsKeeping, IsNextPlace, IsNextQuery, IsNextTurn};
ghost use Rattle.cert_condition.specs.View.{IsTurned, due_count, first_count};
ghost use Rattle.law_model.specs.declared.turn.Turn.TheVariants as turn;

use crate::change::{next_exchanged, next_taken};
use crate::copy::{copy_of, copy_of_places};
use crate::next::NextQuery;
use base_lists::Memory;
use design_circuit::Place;
use law_model::Turn;
use sat_proof::{Cnf, Exhausted, Model, Refuted};
use std::alloc::Global;
use std::marker;

/// The condition of a certain place, under way. Its list begins with all certain boundary places; each that is due is
/// left out in its turn, in place order, and stays out where that turn drops it.
#[derive(Drop)]
pub struct Condition {
    place: Place,
    boundary: Vec<Place>,
    listed: Vec<Place>,
    kept: usize,
    due: usize,
    turns: Vec<Turn>,
    limit: u32,
    next: NextQuery,
}

impl marker::Model for Condition {
    ghost use Rattle.std.specs.Prelude.{◌+◌, ◌≤◌};
    ghost use Rattle.std.specs.Vec.{vec_capacity, vec_len};
    ghost use Rattle.cert_condition.specs.View.{ConditionView, HoldsTogether, HoldsTurns};

    ghost Value = { ConditionView };

    ghost view = { λ some. record {
      place = some.place;
      boundary = some.boundary.items;
      listed = some.listed.items;
      kept = some.kept;
      due = some.due;
      turns = some.turns.items;
      limit = some.limit;
      next = some.next;
    } };

    ghost invariant = { λ some.
        HoldsTogether some.listed.items some.kept some.due some.next
        × HoldsTurns some.boundary.items some.turns.items some.due
        × (vec_len some.turns + some.due ≤ vec_capacity some.turns) };
}

impl Condition {
    /// How many turns are still to be made.
    pub fn turns_due(&self) -> usize
        ensures { result ≡ self.now.due }
    {
        self.due
    }

    /// Its place.
    pub fn place(&self) -> Place
        ensures { result ≡ self.now.place }
    {
        self.place
    }

    /// All certain boundary places, in place order.
    pub fn boundary(&self) -> &[Place]
        ensures { result.now ≡ self.now.boundary }
    {
        self.boundary.as_slice()
    }

    /// The list, in place order.
    pub fn places(&self) -> &[Place]
        ensures { result.now ≡ self.now.listed }
    {
        self.listed.as_slice()
    }

    /// The turns that were made.
    pub fn turns(&self) -> &[Turn]
        ensures { result.now ≡ self.now.turns }
    {
        self.turns.as_slice()
    }

    /// How long a fresh log is.
    pub fn limit(&self) -> u32
        ensures { result ≡ self.now.limit }
    {
        self.limit
    }

    /// The place of the next turn.
    pub fn next_place(&self) -> Place
        requires { 0 < self.now.due }
        ensures { IsNextPlace self.now result }
    {
        self.boundary[self.turns.len()]
    }

    /// The query of the next turn, as it is kept: that of the list without the next place.
    pub fn next_query(&self) -> &Cnf
        requires { 0 < self.now.due }
        ensures query { IsNextQuery self.now result.now }
        ensures value { result.now ≡ self.now.next.query }
        ensures few { result.now.vars ≤ 2147483647 }
        ensures fit { Fit result.now.vars result.now.clauses }
    {
        &self.next.query
    }

    /// A copy of the query of the next turn. Takes memory for it.
    pub fn query(&self, alloc: Global) -> Result<Cnf, Memory>
        requires { 0 < self.now.due }
        ensures { IfOk result (IsNextQuery self.now) }
    {
        copy_of(alloc, self.next_query())
    }

    /// The next place leaves the list, since a log refutes the query without it.
    pub fn drop_place(self, proof: Refuted) -> Condition
        requires due { 0 < self.due }
        requires refutes { FindsNext self (λ query. Fit query.vars proof × Refutes query.clauses proof) }
        ensures { IsTurned self (turn.Dropped proof) result }
    {
        let Condition {
            place,
            boundary,
            mut listed,
            kept,
            due,
            turns,
            limit,
            next,
        } = self;
        let _ = listed.remove(kept);
        let next = next_taken(next, kept, due);
        let turns = with_turn(turns, Turn::Dropped(proof.into_log()));
        Condition {
            place,
            boundary,
            listed,
            kept,
            due: due - 1,
            turns,
            limit,
            next,
        }
    }

    /// The next place stays, since a model makes each clause of the query without it true.
    pub fn need(self, model: Model) -> Condition
        requires due { 0 < self.due }
        requires model { FindsNext self (λ query. IsModel query.vars query.clauses model) }
        ensures { IsTurned self (turn.Needed model) result }
    {
        self.stay(Turn::Needed(model))
    }

    /// The next place stays, since the search ended with a fresh log.
    pub fn tried(self, proof: Exhausted) -> Condition
        requires due { 0 < self.due }
        requires fresh { FindsNext self
            (λ query. Fit query.vars proof × AreFresh query.clauses proof × (length proof ≡ self.limit)) }
        ensures { IsTurned self (turn.Tried proof) result }
    {
        self.stay(Turn::Tried(proof.into_log()))
    }

    /// The condition of a place and all its certain boundary places, and no turn made. Where they are more than 64 none
    /// is due. Takes memory for all turns, and 8 bytes for each place.
    pub(crate) fn begin(
        alloc: Global,
        place: Place,
        listed: Vec<Place>,
        next: NextQuery,
        limit: u32,
    ) -> Result<Condition, Memory>
        requires { 0 < due_count (length listed.items)
            → length next.query.clauses ≡ next.cone + length listed.items }
        ensures begun { IfOk result (IsBegun place listed.items next limit) }
        ensures none { IfOk result (λ condition. condition.turns ≡ []) }
        ensures limit { IfOk result (λ condition. condition.limit ≡ limit) }
    {
        let boundary = copy_of_places(alloc, listed.as_slice())?;
        let kept = first_count(listed.len());
        let due = due_count(listed.len());
        let turns = Vec::with_capacity(alloc, due)?;
        Ok(Condition {
            place,
            boundary,
            listed,
            kept,
            due,
            turns,
            limit,
            next,
        })
    }

    /// The next place stays in the list.
    fn stay(self, turn: Turn) -> Condition
        requires due { 0 < self.due }
        requires stays { IsKeeping turn }
        requires turn { IsNextTurn self turn }
        ensures { IsTurned self turn result }
    {
        let Condition {
            place,
            boundary,
            listed,
            kept,
            due,
            turns,
            limit,
            next,
        } = self;
        let next = next_exchanged(next, kept, due);
        let turns = with_turn(turns, turn);
        Condition {
            place,
            boundary,
            listed,
            kept: kept + 1,
            due: due - 1,
            turns,
            limit,
            next,
        }
    }
}

/// How many of some places have no turn, and how many have one.
fn first_count(count: usize) -> usize
    ensures { result ≡ first_count count }
{
    if count > 64 { count } else { 0 }
}

pub(crate) fn due_count(count: usize) -> usize
    ensures { result ≡ due_count count }
{
    if count > 64 { 0 } else { count }
}

/// Turns with one more behind them, for which there is room.
fn with_turn(mut turns: Vec<Turn>, turn: Turn) -> Vec<Turn>
    requires { vec_len turns < vec_capacity turns }
    ensures turns { result.items ≡ turns.items ++ turn ∷ [] }
    ensures len { vec_len result ≡ vec_len turns + 1 }
    ensures capacity { vec_capacity turns ≤ vec_capacity result }
{
    match turns.push(turn) {
        Ok(()) => turns,
        Err(_) => unreachable!(),
    }
}
