//! Conditions made by a search.

ghost use Rattle.std.specs.Prelude.{◌≡◌, ◌<◌, IfOk};
ghost use Rattle.cert_condition.specs.First.{IsCertainCone, IsConditionOfCone};
ghost use Rattle.cert_condition.specs.View.{IsFinishedFrom, IsStep};

use crate::condition::Condition;
use base_lists::Memory;
use decide_nodes::Cone;
use sat_query::{Decider, Outcome};
use std::alloc::Global;
use wave_proved::Wave;

/// The condition of a certain place that has a cone, with all turns made. Takes memory as `Condition::new` does, and
/// that of one search at a time.
pub fn condition_of(
    alloc: Global,
    wave: &Wave<'_>,
    cone: Cone,
    limit: u32,
) -> Result<Condition, Memory>
    requires cone { IsCertainCone wave.now cone.nodes }
    requires limit { limit ≡ wave.now.limits.conflicts }
    ensures condition { IfOk result (IsConditionOfCone wave.now cone.nodes) }
    ensures finished { IfOk result (λ condition. condition.due ≡ 0) }
{
    wave.recall();
    let condition = Condition::new(alloc, wave, cone)?;
    finish(alloc, condition, limit)
}

/// Makes all turns that are due, each by a guess, or by a search of at most as many clauses as the limit of a fresh
/// log. What guesses find of a variable is kept for the next turn.
pub fn finish(alloc: Global, condition: Condition, limit: u32) -> Result<Condition, Memory>
    requires limit { limit ≡ condition.limit }
    requires some { 0 < limit }
    ensures { IfOk result (IsFinishedFrom condition) }
{
    let mut decider = Decider::new(alloc);
    let mut now = condition;
    'turns: while now.turns_due() > 0 {
        now = make_turn(alloc, &mut decider, now, limit)?;
    }
    Ok(now)
}

/// Makes one turn.
fn make_turn(
    alloc: Global,
    decider: &mut Decider,
    condition: Condition,
    limit: u32,
) -> Result<Condition, Memory>
    requires due { 0 < condition.due }
    requires limit { limit ≡ condition.limit }
    requires some { 0 < limit }
    ensures { IfOk result (IsStep condition) }
{
    match decider.decide(alloc, condition.next_query(), limit)? {
        Outcome::Model(model) => Ok(condition.need(model)),
        Outcome::Refuted(proof) => Ok(condition.drop_place(proof)),
        Outcome::Limit(proof) => Ok(condition.tried(proof)),
    }
}
