//! Recordings as simulators write them, value change dumps, read exactly or refused with the byte (IEEE 1364-2005,
//! clause 18). Start at `read_vcd`, `Recording` and `Cursor`.
//!
//! One file a concern, in the order of the text: `words` (words and their places), `kinds` and `bytes` (what a word
//! is), `ranges` (the name of a variable), `declarations` and `read_declarations`, `body` and `read_changes` (times and
//! changes), `read` (the whole text), `recording` and `cursor` (what is read back), `refusal` and `fault`. Each
//! function that reads ensures an equation of the machine in specs/Machine.antt; `read_vcd` says by it what the text
//! says or its first fault, and in the words of specs/Scopes.antt in which scope each variable stands.
#![tactic(auto)]

mod body;
mod bytes;
mod cursor;
mod declarations;
mod fault;
mod kinds;
mod ranges;
mod read;
mod read_changes;
mod read_declarations;
mod recording;
mod refusal;
mod variable;
mod words;

pub use cursor::Cursor;
pub use fault::RecordingFault;
pub use read::read_vcd;
pub use recording::Recording;
pub use refusal::VcdErr;
pub use variable::Variable;
