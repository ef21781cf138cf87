//! Which certain places the value of a certain place needs: conditions, the queries that test them, and the turns that
//! make them.
//!
//! A condition begins with all certain places that the rules of the cone read. One after the other each is left out,
//! and stays out where the query of the rest has no model: deletion-based minimization, one search a place, at most 64.
//! The clauses of the cone are made once and shared by all turns. Start at specs/Condition.antt, specs/TurnQuery.antt,
//! specs/Turns.antt and specs/Laws.antt.
#![tactic(auto)]

mod assemble;
mod change;
mod condition;
mod copy;
mod first;
mod laws;
mod made;
mod next;
mod nodes;
mod query;
mod units;
mod whole;
mod worked;

pub use condition::Condition;
pub use decide_cone::{Cone, Cones, Lanes, Tracer};
pub use laws::{
    conditions_are_refuted, conditions_stay_right, lists_are_conditions, turns_keep_conditions,
};
pub use made::{condition_of, finish};
pub use worked::conditions_by_hand;
