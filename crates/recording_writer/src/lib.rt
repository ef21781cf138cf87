//! The text of the repaired recording, byte by byte (IEEE 1364-2005, clause 18).
//! Start at `vcd_text`, and at specs/Text.antt; what is shown is read by a `Shown`.
#![tactic(auto)]

mod code;
mod declarations;
mod laws;
mod marked;
mod moments;
mod puts;
mod readers;
mod rows;
mod shown;
mod text;

pub use laws::texts_are_one;
pub use marked::mark_rounds;
pub use readers::BitReaders;
pub use rows::MomentRows;
pub use shown::Shown;
pub use text::{text_of_rows, vcd_text};
