//! What a netlist text stands for.

use base_lists::Items;
use design_cell::{Gate, RawRow, Value};

/// A name, without the backslash of an escaped one, and the byte at which it stands.
#[derive(Drop)]
pub struct Word {
    pub text: Items<u8>,
    pub escaped: bool,
    pub at: usize,
}

/// A name, one bit of it, a slice of it from one index to another, or a literal's size in bits and its value.
#[derive(Drop)]
pub enum PartKind {
    Whole(Word),
    Bit(Word, u32),
    Slice(Word, u32, u32),
    Literal(u32, u128),
}

/// A part of an expression, and the byte of its first token.
#[derive(Drop)]
pub struct Part {
    pub at: usize,
    pub what: PartKind,
}

/// The parts of an expression from left to right, and the byte of its first token, which may be a brace.
#[derive(Drop)]
pub struct Expr {
    pub at: usize,
    pub parts: Items<Part>,
}

/// The kind of a gate.
#[derive(Clone, Copy, Debug, PartialEq, Eq)]
pub enum GateKind {
    Logic(Gate),
    Pullup,
    Pulldown,
}

/// A gate, and the byte at which its kind stands.
#[derive(Drop)]
pub struct GateItem {
    pub kind: GateKind,
    pub at: usize,
    pub terminals: Items<Expr>,
}

/// A connection by position. Where it is empty, `at` is the byte of the token after it, else of its first token.
#[derive(Drop)]
pub struct Connection {
    pub at: usize,
    pub value: Option<Expr>,
}

/// A connection by the name of a port.
#[derive(Drop)]
pub struct NamedConnection {
    pub port: Word,
    pub value: Option<Expr>,
}

/// The connections of an instance.
#[derive(Drop)]
pub enum Connections {
    Positional(Items<Connection>),
    Named(Items<NamedConnection>),
}

/// An instance of a module or a primitive.
#[derive(Drop)]
pub struct InstanceItem {
    pub definition: Word,
    pub name: Option<Word>,
    pub connections: Connections,
}

/// What a declaration makes of a name.
#[derive(Clone, Copy, Debug, PartialEq, Eq)]
pub enum NetKind {
    Input,
    Output,
    Wire,
    Supply0,
    Supply1,
    Reg,
}

/// The declaration of one name. The range is its first and its last index.
#[derive(Drop)]
pub struct Declare {
    pub what: NetKind,
    pub range: Option<(u32, u32)>,
    pub name: Word,
    pub value: Option<Expr>,
}

/// One declared name, gate, instance or assignment.
#[derive(Drop)]
pub enum Item {
    Declare(Declare),
    Gate(GateItem),
    Instance(InstanceItem),
    Assign(Expr, Expr),
}

/// A module. Ports that are declared in its head stand in `ports`, and as declarations before all other items.
#[derive(Drop)]
pub struct Module {
    pub name: Word,
    pub ports: Items<Word>,
    pub items: Items<Item>,
}

/// What a declaration makes of a port of a primitive.
#[derive(Clone, Copy, Debug, PartialEq, Eq)]
pub enum PrimKind {
    Output,
    Input,
    Reg,
    /// The value that the state starts from.
    Initial(Value),
}

/// The declaration of one port.
#[derive(Drop)]
pub struct PrimDeclare {
    pub what: PrimKind,
    pub name: Word,
}

/// A user-defined primitive. The declarations of its port list come first.
#[derive(Drop)]
pub struct Primitive {
    pub name: Word,
    pub ports: Items<Word>,
    pub declarations: Items<PrimDeclare>,
    pub rows: Items<RawRow>,
}

/// The modules and the primitives of a text, each in its order.
#[derive(Drop)]
pub struct Source {
    pub modules: Items<Module>,
    pub primitives: Items<Primitive>,
}
