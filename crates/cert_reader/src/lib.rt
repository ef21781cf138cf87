//! The reader of certificates' texts, with the first wrong line of one that stands for none.
//!
//! A machine reads line by line (specs/Machine.antt), and each reader's contract is an equation of its runs; that the
//! machine and the definitions of `cert_writer` say the same is proved once. Time and memory are linear in the text.
//! Start at `read_text`.
#![tactic(auto)]

mod line;
mod lines;
mod logs;
mod models;
mod numbers;
mod pieces;
mod read;
mod refusal;
mod turn;
mod words;

pub use read::read_text;
pub use refusal::{TextErr, WrongLine};
