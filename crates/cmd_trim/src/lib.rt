//! The program `xrtrim` as one call. Start at `run`, and at `specs/Done.antt`, which says what status 0 promises and
//! what a text is refused for; what else a run comes to by its status is base_run's.
//!
//! A run goes by these files: `program.rt` (words to a command), `words.rt` (the set of lines), `names.rt` (lists of
//! names), `command.rt` (its phases, as in `specs/Phases.antt`), `cause.rt` and `line.rt` (what a text is refused for,
//! and its line). Stubs are netlist_stub's, what is kept of a text is netlist_trim's, how files are read and written
//! base_run's.
#![tactic(auto)]

mod cause;
mod command;
mod laws;
mod line;
mod names;
mod program;
mod trim_words;
mod words;

pub use laws::texts_are_kept_without_stubs;
pub use program::{run, usage};
pub use trim_words::TrimWords;
pub use words::read_trim_words;
