//! What becomes known, and what doesn't stay known, where registers start with given bits.
//!
//! Start at specs/Started.antt and `with_starts`, and at specs/Gained.antt and `gained`.
#![tactic(auto)]

mod items;
mod line;
mod refusal;
mod registers;
mod starts;

pub use items::{Fixed, Item, gained};
pub use line::put_start_line;
pub use refusal::{FixErr, StartFault};
pub use starts::with_starts;
