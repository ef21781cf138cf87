//! A turn that a text states, checked against the next query of a condition.

ghost use Rattle.std.specs.Prelude.{◌<◌, IfNone, IfOk, IfSome};
ghost use Rattle.cert_condition.specs.View.{IsTurned};
ghost use Rattle.law_model.specs.declared.turn.Turn.TheVariants as turn;
ghost use Rattle.cert_turns.specs.TurnLines.{IsNeverNext, IsNoTurn, IsTaken};

use base_lists::Memory;
use cert_condition::Condition;
use law_model::{Turn, TurnLine};
use sat_proof::{Log, Model};
use sat_query::logs::{checker_for, fits};
use sat_query::models::is_model;
use std::alloc::Global;

/// The condition after a turn that a text states; none where that isn't the next turn: it names another place, its log
/// or its model is of other variables, or it doesn't hold. Takes the memory of a check of its log.
pub fn take_turn(
    alloc: Global,
    condition: Condition,
    line: TurnLine,
) -> Result<Option<Condition>, Memory>
    requires due { 0 < condition.due }
    ensures some { IfOk result (λ found. IfSome found (IsTaken condition line)) }
    ensures none { IfOk result (λ found. IfNone found (IsNoTurn condition line)) }
{
    let TurnLine { place, turn } = line;
    if condition.next_place() == place {
        turned(alloc, condition, turn)
    } else {
        Ok(None)
    }
}

/// The condition after a turn of the next place, if it is one.
fn turned(alloc: Global, condition: Condition, turn: Turn) -> Result<Option<Condition>, Memory>
    requires due { 0 < condition.due }
    ensures some { IfOk result (λ found. IfSome found (IsTurned condition turn)) }
    ensures none { IfOk result (λ found. IfNone found (IsNeverNext condition turn)) }
{
    match turn {
        Turn::Dropped(log) => dropped(alloc, condition, log),
        Turn::Needed(model) => Ok(needed(condition, model)),
        Turn::Tried(log) => tried(alloc, condition, log),
    }
}

/// The same where a log refutes the query.
fn dropped(alloc: Global, condition: Condition, log: Log) -> Result<Option<Condition>, Memory>
    requires due { 0 < condition.due }
    ensures some { IfOk result (λ found. IfSome found (IsTurned condition (turn.Dropped log))) }
    ensures none { IfOk result (λ found. IfNone found (IsNeverNext condition (turn.Dropped log))) }
{
    let query = condition.next_query();
    if !fits(&log, query.vars) {
        return Ok(None);
    }
    let mut checker = checker_for(alloc, query, &log)?;
    match checker.check(query, log) {
        Ok(proof) => Ok(Some(condition.drop_place(proof))),
        Err(_) => Ok(None),
    }
}

/// The same where a model makes each of its clauses true.
fn needed(condition: Condition, model: Model) -> Option<Condition>
    requires due { 0 < condition.due }
    ensures some { IfSome result (IsTurned condition (turn.Needed model)) }
    ensures none { IfNone result (IsNeverNext condition (turn.Needed model)) }
{
    if is_model(condition.next_query(), &model) {
        Some(condition.need(model))
    } else {
        None
    }
}

/// The same where a log is fresh for it, and as long as the limit.
fn tried(alloc: Global, condition: Condition, log: Log) -> Result<Option<Condition>, Memory>
    requires due { 0 < condition.due }
    ensures some { IfOk result (λ found. IfSome found (IsTurned condition (turn.Tried log))) }
    ensures none { IfOk result (λ found. IfNone found (IsNeverNext condition (turn.Tried log))) }
{
    let query = condition.next_query();
    if !fits(&log, query.vars) {
        return Ok(None);
    }
    let mut checker = checker_for(alloc, query, &log)?;
    match checker.check_fresh(query, log, condition.limit()) {
        Ok(proof) => Ok(Some(condition.tried(proof))),
        Err(_) => Ok(None),
    }
}
