//! Waveforms that are true: each place is written with its justification, or not at all. Kept by what changes.
//!
//! Start at specs/Contents.antt, then at `Wave`.
#![tactic(auto)]

mod advance;
mod arguments;
mod kept;
mod laws;
mod line;
mod row;
mod source;
mod stated;
mod token;
mod wave;

pub use advance::{AdvanceErr, Optimistic};
pub use arguments::Arguments;
pub use laws::waves_are_one;
pub use row::WaveRow;
pub use token::Verdict;
pub use wave::Wave;
pub use wave_due::Anew;
