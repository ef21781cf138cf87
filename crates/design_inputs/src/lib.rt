//! The recorded values of the inputs of a design, kept by what changes from moment to moment and not as rows.
//!
//! Start at specs/Rows.antt, then at `Inputs` and `InputsWriter`.
#![tactic(auto)]

mod code;
mod inputs;
mod writer;

pub use inputs::Inputs;
pub use writer::InputsWriter;
