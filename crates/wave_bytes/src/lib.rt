//! The places of a circuit that are written, a byte each, kept by what changes, and the class of the next one.
//!
//! A byte says what stands at its place, whether its net keeps there, and mostly its class, so that the class of a
//! later place needs no look at drivers further back. Places that have what their nets' places a step before have are
//! written many at once, and take no memory. A copy has the bytes of what it copies, but for its class, and no bytes of
//! its own: specs/Roots.antt says what copies what. Start at specs/View.antt, then at `Waveform`.
#![tactic(auto)]

mod anew;
mod byte;
mod bytes;
mod front;
mod roots;
mod row;
mod rows;
mod track;
mod waveform;

pub use anew::Anew;
pub use bytes::value_if_certain;
pub use law_quiet::cell_chooses;
pub use row::WaveformRow;
pub use waveform::Waveform;
