//! Netlist texts, read (structural Verilog, IEEE 1364-2005). Start at `parse`.
#![tactic(auto)]

mod cell;
mod declaration;
mod expression;
mod head;
mod keyword;
mod lexeme;
mod module;
mod number;
mod primitive;
mod reader;
mod skip;
mod table;
mod table_symbol;
mod text;

pub use netlist_grammar::{
    Connection, Connections, Declare, Expr, GateItem, GateKind, InstanceItem, Item, Module,
    NamedConnection, NetKind, NetlistFault, ParseErr, Part, PartKind, PrimDeclare, PrimKind,
    Primitive, Source, Word,
};
pub use text::parse;
