//! The grammar of netlist texts (IEEE 1364-2005, annex A): what a text stands for (`Source`), the keywords and marks
//! that its rules quote (`Fixed`), and what is wrong with a text that is none (`NetlistFault`). Start at `Source` and
//! at specs/Text.antt, which has the rule of a whole text.
//!
//! The specs have a rule for each production (`Rules`, `Expressions`, `Items`, `Primitives`, `Text`), which relates the
//! tokens before it, the tokens after it and the tree that it stands for; `Refusal` says what the first token is that
//! no text continues with, `Whole` what each tree has, whatever its text. `Machine` has a state for each
//! place between tokens, and one step for each token. Three laws join both: what the rules have the machine reads
//! (proofs/Follows.antt), what the machine reads to the end the rules have (Accepts.antt), and each state can be
//! finished, so that the first token which the machine refuses is the first unviable one (Viable.antt).
#![tactic(auto)]

mod fault;
mod fixed;
mod refusal;
mod tree;

pub use fault::NetlistFault;
pub use fixed::Fixed;
pub use refusal::ParseErr;
pub use tree::{
    Connection, Connections, Declare, Expr, GateItem, GateKind, InstanceItem, Item, Module,
    NamedConnection, NetKind, Part, PartKind, PrimDeclare, PrimKind, Primitive, Source, Word,
};
