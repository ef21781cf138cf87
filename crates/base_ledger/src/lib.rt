//! Small values of many positions at many steps, kept by what changes: a log by step, the rows of the last three steps,
//! and an index by position that is made when the ledger is finished.
//!
//! Start at specs/Ledger.antt, then at `Ledger` and `LedgerIndex`.
#![tactic(auto)]

mod between;
mod change;
mod index;
mod ledger;

pub use change::Change;
pub use index::LedgerIndex;
pub use ledger::Ledger;
