//! Trees as short texts.

use design_cell::{RawRow, Symbol};
use netlist_grammar::{
    Connection, Connections, Declare, Expr, GateItem, InstanceItem, Item, Module, NamedConnection,
    Part, PartKind, PrimDeclare, Primitive, Source, Word,
};
use std::alloc::{AllocError, Global};
use std::fmt::Write;

pub fn printed(alloc: Global, tree: &Source) -> Result<String, AllocError> {
    let mut out = String::new(alloc);
    for module in tree.modules.as_slice() {
        print_module(&mut out, module)?;
    }
    for primitive in tree.primitives.as_slice() {
        print_primitive(&mut out, primitive)?;
    }
    Ok(out)
}

fn print_module(out: &mut String, module: &Module) -> Result<(), AllocError> {
    out.push_str("module ")?;
    print_word(out, &module.name)?;
    out.push_str(" ports")?;
    print_ports(out, module.ports.as_slice())?;
    for item in module.items.as_slice() {
        print_item(out, item)?;
    }
    Ok(())
}

fn print_ports(out: &mut String, ports: &[Word]) -> Result<(), AllocError> {
    for port in ports {
        out.push_str(" ")?;
        print_word(out, port)?;
    }
    out.push_str("; ")?;
    Ok(())
}

fn print_word(out: &mut String, word: &Word) -> Result<(), AllocError> {
    if word.escaped {
        out.push_str("\\")?;
    }
    for byte in word.text.as_slice() {
        out.push(*byte as char)?;
    }
    let at = word.at;
    write!(out, "@{at}")
}

fn print_item(out: &mut String, item: &Item) -> Result<(), AllocError> {
    match item {
        Item::Declare(declare) => print_declare(out, declare)?,
        Item::Gate(gate) => print_gate(out, gate)?,
        Item::Instance(instance) => print_instance(out, instance)?,
        Item::Assign(left, right) => {
            print_expr(out, left)?;
            out.push_str(" = ")?;
            print_expr(out, right)?;
        }
    }
    out.push_str("; ")?;
    Ok(())
}

fn print_declare(out: &mut String, declare: &Declare) -> Result<(), AllocError> {
    let what = declare.what;
    write!(out, "{what:?}")?;
    if let Some((first, last)) = declare.range {
        write!(out, "[{first}:{last}]")?;
    }
    out.push_str(" ")?;
    print_word(out, &declare.name)?;
    if let Some(value) = &declare.value {
        out.push_str(" = ")?;
        print_expr(out, value)?;
    }
    Ok(())
}

fn print_gate(out: &mut String, gate: &GateItem) -> Result<(), AllocError> {
    let kind = gate.kind;
    let at = gate.at;
    write!(out, "{kind:?}@{at}(")?;
    let mut first = true;
    for terminal in gate.terminals.as_slice() {
        if !first {
            out.push_str("; ")?;
        }
        first = false;
        print_expr(out, terminal)?;
    }
    out.push_str(")")?;
    Ok(())
}

fn print_instance(out: &mut String, instance: &InstanceItem) -> Result<(), AllocError> {
    print_word(out, &instance.definition)?;
    out.push_str(" ")?;
    match &instance.name {
        Some(name) => print_word(out, name)?,
        None => out.push_str("-")?,
    }
    out.push_str("(")?;
    match &instance.connections {
        Connections::Positional(list) => print_positional(out, list.as_slice())?,
        Connections::Named(list) => print_named(out, list.as_slice())?,
    }
    out.push_str(")")?;
    Ok(())
}

fn print_positional(out: &mut String, list: &[Connection]) -> Result<(), AllocError> {
    let mut first = true;
    for connection in list {
        if !first {
            out.push_str(", ")?;
        }
        first = false;
        let at = connection.at;
        write!(out, "{at}")?;
        if let Some(value) = &connection.value {
            out.push_str("=")?;
            print_expr(out, value)?;
        }
    }
    Ok(())
}

fn print_named(out: &mut String, list: &[NamedConnection]) -> Result<(), AllocError> {
    let mut first = true;
    for connection in list {
        if !first {
            out.push_str(", ")?;
        }
        first = false;
        out.push_str(".")?;
        print_word(out, &connection.port)?;
        if let Some(value) = &connection.value {
            out.push_str("=")?;
            print_expr(out, value)?;
        }
    }
    Ok(())
}

fn print_expr(out: &mut String, expr: &Expr) -> Result<(), AllocError> {
    let at = expr.at;
    write!(out, "{at}:")?;
    let mut first = true;
    for part in expr.parts.as_slice() {
        if !first {
            out.push_str(",")?;
        }
        first = false;
        print_part(out, part)?;
    }
    Ok(())
}

fn print_part(out: &mut String, part: &Part) -> Result<(), AllocError> {
    let at = part.at;
    match &part.what {
        PartKind::Whole(name) => print_word(out, name),
        PartKind::Bit(name, index) => {
            print_word(out, name)?;
            write!(out, "[{index}]")
        }
        PartKind::Slice(name, first, last) => {
            print_word(out, name)?;
            write!(out, "[{first}:{last}]")
        }
        PartKind::Literal(size, value) => write!(out, "{value}@{at}/{size}"),
    }
}

fn print_primitive(out: &mut String, primitive: &Primitive) -> Result<(), AllocError> {
    out.push_str("primitive ")?;
    print_word(out, &primitive.name)?;
    out.push_str(" ports")?;
    print_ports(out, primitive.ports.as_slice())?;
    for declaration in primitive.declarations.as_slice() {
        print_pin(out, declaration)?;
    }
    for row in primitive.rows.as_slice() {
        print_row(out, row)?;
    }
    Ok(())
}

fn print_pin(out: &mut String, declaration: &PrimDeclare) -> Result<(), AllocError> {
    let what = declaration.what;
    write!(out, "{what:?} ")?;
    print_word(out, &declaration.name)?;
    out.push_str("; ")?;
    Ok(())
}

fn print_row(out: &mut String, row: &RawRow) -> Result<(), AllocError> {
    for entry in row.entries.as_slice() {
        print_symbol(out, *entry)?;
    }
    out.push_str(":")?;
    if let Some(state) = row.state {
        print_symbol(out, state)?;
        out.push_str(":")?;
    }
    print_symbol(out, row.output)?;
    out.push_str("; ")?;
    Ok(())
}

fn print_symbol(out: &mut String, symbol: Symbol) -> Result<(), AllocError> {
    match symbol {
        Symbol::Single(byte) => {
            out.push(byte as char)?;
        }
        Symbol::Change(old, new) => {
            out.push_str("(")?;
            out.push(old as char)?;
            out.push(new as char)?;
            out.push_str(")")?;
        }
    }
    Ok(())
}
