//! What every command is made of: inputs read, phases judged, outputs written, a report printed, or one refusal.
//!
//! Start at `Prepare` and `run_command`. `specs/Phases.antt` has the phases of a command and what texts come to by
//! them, `specs/Ends.antt` what a run comes to by its status,
//! and what it leaves. `input.rt` reads texts,
//! `refusal.rt` has what a command is refused for, `output.rt` and `delivery.rt` write and print what stands.
#![tactic(auto)]

mod cause;
mod command;
mod delivery;
mod file_name;
mod input;
mod output;
mod ready;
mod refusal;
mod undelivered;

pub use cause::Cause;
pub use command::{Prepare, refuse_memory, refuse_words, run_command};
pub use delivery::deliver;
pub use file_name::FileName;
pub use input::{read_input, read_inputs};
pub use output::{Output, Report};
pub use ready::Ready;
pub use refusal::Refusal;
pub use undelivered::Undelivered;
