//! Tokens of netlist texts with their places (structural Verilog, IEEE 1364-2005, clause 3). Start at `Lexer`.
#![tactic(auto)]

mod blank;
mod bytes;
mod directive;
mod ends;
mod lexer;
mod step;
mod token;

pub use bytes::{is_letter, is_name_byte};
pub use lexer::Lexer;
pub use token::{Kind, LexErr, Token};
