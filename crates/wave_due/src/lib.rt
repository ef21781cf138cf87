//! Which places of a waveform are due as it grows: the others have what their nets' places a step before have, and are
//! written many at once.
//!
//! Start at specs/Walk.antt, then at `Walk`.
#![tactic(auto)]

mod begin;
mod calm;
mod sources;
mod walk;

pub use walk::Walk;
pub use wave_bytes::{Anew, Waveform, WaveformRow, value_if_certain};
