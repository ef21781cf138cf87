//! The text of code that forces nets (IEEE 1364-2005, clause 9.3.2), written by `write_code` and read by `read_code`.
//! Start at specs/Written.antt, then at specs/Grammar.antt and Says.antt.
//!
//! A text is read in two halves: `tokens` runs the machine of specs/Machine.antt, one function a state in `machine`,
//! and has the events of the statements; replay_forces makes of these the changes, place by place. That the machine
//! reads just what the grammar says is a law (`grammar_is_read`).
#![tactic(auto)]

mod bytes;
mod clock;
mod code;
mod fault;
mod laws;
mod line;
mod lookup;
mod machine;
mod names;
mod progress;
mod read;
mod refusal;
mod state;
mod statements;
mod tokens;
mod words;
mod write;

pub use fault::CodeFault;
pub use laws::{grammar_is_read, own_code_is_read};
pub use line::put_code_line;
pub use read::read_code;
pub use refusal::CodeErr;
pub use write::write_code;
