//! The changes of codes in compact form, and the value of a bit in a moment (IEEE 1364-2005, clause 18).
//! Start at `Changes`.
#![tactic(auto)]

mod changes;
mod digits;
mod texts;
mod track;

pub use changes::Changes;
