//! Runs of a whole program on files in memory, with what each must leave: cases as texts, and jobs with want of memory.
//! Start at `Program`, which a program of tests implements by one call, at `run_file` and at `run_named`. What a case
//! may say is at the head of `case.rt`, what sets it up at that of `setting.rt`.
#![tactic(auto)]

mod after;
mod back;
mod case;
mod compared;
mod cut;
mod exported;
mod failing;
mod files;
mod given;
mod job;
mod made;
mod named;
mod program;
mod setting;
mod tabled;
mod words;

pub use files::run_file;
pub use named::{requests_in, run_named};
pub use program::Program;
