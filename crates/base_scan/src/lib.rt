//! Bytes, digits and words of texts that are read: what the readers of recordings, clauses, logs, certificates and code
//! share.
//!
//! A number is read digit by digit, and given up once it is over its limit; a text is cut at its first gap. Each is one
//! loop, linear in its word, and takes no memory. Start at `number_within` and `split_at`.
#![tactic(auto)]

mod bytes;
mod gap;
mod numbers;

pub use bytes::{all_digits, are_digits, is_digit, is_white, is_word};
pub use gap::{Gap, first_length, split_at};
pub use numbers::{number_within, value_within};
