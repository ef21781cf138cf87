//! The recording of what a finished wave shows, written from the wave: no history of it is made.
//!
//! Start at `wave_text`, and at specs/History.antt.
#![tactic(auto)]

mod laws;
mod marks;
mod row;
mod text;

pub use laws::history_shows_wave;
pub use text::wave_text;
