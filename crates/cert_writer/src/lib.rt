//! The text of a certificate of either form: which texts stand for which certificates, which line of a text is the
//! first wrong one, and the writers.
//!
//! The text of a certificate is a function of it. Time and memory are linear in the text. Start at specs/Text.antt,
//! which says what is written, and at specs/Wrong.antt, which says what is refused; then at `put_beginning`,
//! `put_line`, `put_turn` and `put_end`, which write a text in this order. `cert_reader` reads it.
#![tactic(auto)]

mod cert;
mod put_words;
mod write;
mod write_line;
mod write_turn;

pub use cert::{Cert, Entry, Form, Head};
pub use write::{put_beginning, put_end};
pub use write_line::put_line;
pub use write_turn::put_turn;
