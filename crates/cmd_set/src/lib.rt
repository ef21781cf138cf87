//! A set of commands: what a command is, how the words after its name are read, and how it is run.
//!
//! A program over a set says which command a name is (`command_of`), and calls `run_as` for the one that its words
//! name. What a run then comes to is said and proved here once: `specs/Set.antt` and `proofs/Runs.antt`, for commands
//! that are lawful (`proofs/Lawful.antt`), as each shows in a file of its own.
//!
//! Start at `Run` and `run_as`, and at `specs/Command.antt`.
#![tactic(auto)]

mod command;
mod form;
mod inputs;
mod phased;
mod read;

pub use command::Run;
pub use form::Form;
pub use inputs::Inputs;
pub use phased::run_as;
pub use read::inputs_as;
