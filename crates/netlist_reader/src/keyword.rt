//! The keywords that the grammar quotes, and those that the profile leaves out (IEEE 1364-2005, annex B), group by
//! group.

ghost use Rattle.std.specs.Prelude.{◌≡◌, bytes_eq};
ghost use Rattle.netlist_grammar.specs.Lexemes as spec;
ghost use Rattle.netlist_reader.specs.Groups as groups;
ghost use Rattle.netlist_reader.specs.Shown.{shown};

use crate::lexeme::Lexeme;
use design_cell::Gate;
use netlist_grammar::{Fixed, GateKind};

/// Whether it is spelled so.
pub fn is_spelled(text: &[u8], spelling: &[u8]) -> bool
    ensures { result ≡ bytes_eq text.now spelling.now }
{
    text == spelling
}

/// A keyword that the grammar quotes, or else a name.
#[tactic(auto, using(crate::proofs::Groups::name_by_groups))]
pub fn name_lexeme<'a>(text: &'a [u8]) -> Lexeme<'a>
    ensures { shown result ≡ spec.name_lexeme text.now }
{
    if let Some(fixed) = head_keyword(text) {
        Lexeme::Quoted(fixed)
    } else if let Some(fixed) = item_keyword(text) {
        Lexeme::Quoted(fixed)
    } else if let Some(kind) = gate_keyword(text) {
        Lexeme::Gate(kind)
    } else if let Some(fixed) = block_keyword(text) {
        Lexeme::Quoted(fixed)
    } else {
        Lexeme::Named(text, false)
    }
}

fn head_keyword(text: &[u8]) -> Option<Fixed>
    ensures { groups.Finds groups.head_keywords text.now spec.quoted result }
{
    if is_spelled(text, b"module") {
        Some(Fixed::Module)
    } else if is_spelled(text, b"endmodule") {
        Some(Fixed::Endmodule)
    } else if is_spelled(text, b"input") {
        Some(Fixed::Input)
    } else if is_spelled(text, b"output") {
        Some(Fixed::Output)
    } else {
        None
    }
}

fn item_keyword(text: &[u8]) -> Option<Fixed>
    ensures { groups.Finds groups.item_keywords text.now spec.quoted result }
{
    if is_spelled(text, b"wire") {
        Some(Fixed::Wire)
    } else if is_spelled(text, b"tri") {
        Some(Fixed::Tri)
    } else if is_spelled(text, b"supply0") {
        Some(Fixed::Supply0)
    } else if is_spelled(text, b"supply1") {
        Some(Fixed::Supply1)
    } else if is_spelled(text, b"reg") {
        Some(Fixed::Reg)
    } else if is_spelled(text, b"assign") {
        Some(Fixed::Assign)
    } else {
        None
    }
}

fn gate_keyword(text: &[u8]) -> Option<GateKind>
    ensures { groups.Finds groups.gate_keywords text.now spec.gate result }
{
    if is_spelled(text, b"and") {
        Some(GateKind::Logic(Gate::And))
    } else if is_spelled(text, b"nand") {
        Some(GateKind::Logic(Gate::Nand))
    } else if is_spelled(text, b"or") {
        Some(GateKind::Logic(Gate::Or))
    } else if is_spelled(text, b"nor") {
        Some(GateKind::Logic(Gate::Nor))
    } else if is_spelled(text, b"xor") {
        Some(GateKind::Logic(Gate::Xor))
    } else if is_spelled(text, b"xnor") {
        Some(GateKind::Logic(Gate::Xnor))
    } else if is_spelled(text, b"buf") {
        Some(GateKind::Logic(Gate::Buf))
    } else if is_spelled(text, b"not") {
        Some(GateKind::Logic(Gate::Not))
    } else if is_spelled(text, b"pullup") {
        Some(GateKind::Pullup)
    } else if is_spelled(text, b"pulldown") {
        Some(GateKind::Pulldown)
    } else {
        None
    }
}

fn block_keyword(text: &[u8]) -> Option<Fixed>
    ensures { groups.Finds groups.block_keywords text.now spec.quoted result }
{
    if is_spelled(text, b"specify") {
        Some(Fixed::Specify)
    } else if is_spelled(text, b"endspecify") {
        Some(Fixed::Endspecify)
    } else if is_spelled(text, b"primitive") {
        Some(Fixed::Primitive)
    } else if is_spelled(text, b"endprimitive") {
        Some(Fixed::Endprimitive)
    } else if is_spelled(text, b"table") {
        Some(Fixed::Table)
    } else if is_spelled(text, b"endtable") {
        Some(Fixed::Endtable)
    } else if is_spelled(text, b"initial") {
        Some(Fixed::Initial)
    } else {
        None
    }
}

/// A keyword that begins an item which the profile leaves out.
#[tactic(auto, using(crate::proofs::Groups::by_groups))]
pub fn is_keyword_left_out(text: &[u8]) -> bool
    ensures { result ≡ spec.is_keyword_left_out text.now }
{
    is_general(text)
        || is_behavioral(text)
        || is_wired_net(text)
        || is_switch(text)
        || is_pass_switch(text)
}

fn is_general(text: &[u8]) -> bool
    ensures { result ≡ groups.is_among groups.general text.now }
{
    is_spelled(text, b"inout")
        || is_spelled(text, b"always")
        || is_spelled(text, b"parameter")
        || is_spelled(text, b"localparam")
        || is_spelled(text, b"defparam")
        || is_spelled(text, b"generate")
        || is_spelled(text, b"genvar")
}

fn is_behavioral(text: &[u8]) -> bool
    ensures { result ≡ groups.is_among groups.behavioral text.now }
{
    is_spelled(text, b"function")
        || is_spelled(text, b"task")
        || is_spelled(text, b"event")
        || is_spelled(text, b"integer")
        || is_spelled(text, b"real")
        || is_spelled(text, b"realtime")
        || is_spelled(text, b"time")
}

fn is_wired_net(text: &[u8]) -> bool
    ensures { result ≡ groups.is_among groups.wired_nets text.now }
{
    is_spelled(text, b"wand")
        || is_spelled(text, b"wor")
        || is_spelled(text, b"triand")
        || is_spelled(text, b"trior")
        || is_spelled(text, b"tri0")
        || is_spelled(text, b"tri1")
        || is_spelled(text, b"trireg")
}

fn is_switch(text: &[u8]) -> bool
    ensures { result ≡ groups.is_among groups.switches text.now }
{
    is_spelled(text, b"bufif0")
        || is_spelled(text, b"bufif1")
        || is_spelled(text, b"notif0")
        || is_spelled(text, b"notif1")
        || is_spelled(text, b"nmos")
        || is_spelled(text, b"pmos")
        || is_spelled(text, b"cmos")
        || is_spelled(text, b"rnmos")
        || is_spelled(text, b"rpmos")
        || is_spelled(text, b"rcmos")
}

fn is_pass_switch(text: &[u8]) -> bool
    ensures { result ≡ groups.is_among groups.pass_switches text.now }
{
    is_spelled(text, b"tran")
        || is_spelled(text, b"tranif0")
        || is_spelled(text, b"tranif1")
        || is_spelled(text, b"rtran")
        || is_spelled(text, b"rtranif0")
        || is_spelled(text, b"rtranif1")
}
