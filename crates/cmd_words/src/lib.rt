//! The words of a job, which commands share: its options, what they give, and the values that they stand for.
//!
//! Start at `job_of`, at `specs/Words.antt` for what options give, and at `specs/Forms.antt` for the options as a
//! table. `options.rt` declares each option that commands share, once, and `typed.rt` has values as numbers and
//! choices. What a line of options is, and how one is read, is base_line's; the words of a command are cmd_program's.
#![tactic(auto)]

mod job;
mod options;
mod typed;
mod words;

pub use job::job_of;
pub use options::{
    CONFLICTS, ENUMERATE, LEVELS, PLACES, RECORD, REPORT, ROUNDS, SCOPE, START, TOP, UNDRIVEN,
};
pub use typed::{conflicts_of, enumerated_of, form_of};
pub use words::{Form, JobWords, Levels, Start, Undriven};
