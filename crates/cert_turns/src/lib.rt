//! Turns as texts state them, and the conditions of all certain Line places of a wave.
//!
//! Start at specs/TurnLines.antt and specs/Conditions.antt, then at `take_turn` and `conditions_of`. The module `logs`
//! is for any log that a text states.
#![tactic(auto)]

mod all;
mod begin;
mod laws;
mod take;

pub use all::conditions_of;
pub use begin::begin_at;
pub use cert_condition::{Condition, Cone, Cones, Lanes};
pub use laws::{conditions_state_turns, conditions_stay};
pub use sat_query::logs;
pub use take::take_turn;
