//! What a text defines, and of each definition the tokens that declare its ports and its parameters. Start at
//! `read_modules`, and at specs/Parts.antt, which says what a token of a module is by what stands before it.
//!
//! A text goes by these files: `module.rt` (what it defines), `state.rt` and `word.rt` (which tokens of a definition
//! declare), `role.rt` and `part.rt` (what these are).
#![tactic(auto)]

mod module;
mod part;
mod role;
mod state;
mod word;

pub use module::{Module, read_modules};
pub use part::Part;
pub use role::Role;
pub use word::is;
