//! Designs as short texts: a line a net.

use design_cell::{Gate, Value};
use design_circuit::{Design, Driver, Latching, NamePart, Pin, Table};
use std::alloc::{AllocError, Global};
use std::fmt::Write;

pub fn printed(alloc: Global, design: &Design) -> Result<String, AllocError> {
    let mut out = String::new(alloc);
    for net in design.nets.as_slice() {
        print_name(&mut out, net.path.parts.as_slice(), net.path.bit)?;
        out.push_str(" = ")?;
        print_driver(&mut out, design, &net.driver)?;
        out.push('\n')?;
    }
    Ok(out)
}

fn print_name(out: &mut String, parts: &[NamePart], bit: Option<u32>) -> Result<(), AllocError> {
    let mut first = true;
    for part in parts {
        if !first {
            out.push('.')?;
        }
        first = false;
        print_part(out, part)?;
    }
    match bit {
        Some(index) => write!(out, "[{index}]"),
        None => Ok(()),
    }
}

fn print_part(out: &mut String, part: &NamePart) -> Result<(), AllocError> {
    if part.escaped {
        out.push('\\')?;
    }
    for byte in part.text.as_slice() {
        out.push(*byte as char)?;
    }
    if part.escaped {
        out.push(' ')?;
    }
    Ok(())
}

fn print_driver(out: &mut String, design: &Design, driver: &Driver) -> Result<(), AllocError> {
    match driver {
        Driver::Input => out.push_str("input"),
        Driver::Undriven => out.push_str("undriven"),
        Driver::Constant(bit) => print_bit(out, *bit),
        Driver::Copy(net) => {
            out.push_str("copy")?;
            print_pin(out, design, Pin::Net(*net))
        }
        Driver::Cell(table, pins) => {
            print_table(out, *table)?;
            print_pins(out, design, pins.as_slice(), 0)
        }
        Driver::Register(latching) => print_register(out, design, latching),
    }
}

fn print_bit(out: &mut String, bit: bool) -> Result<(), AllocError> {
    out.push(if bit { '1' } else { '0' })
}

fn print_table(out: &mut String, table: Table) -> Result<(), AllocError> {
    match table {
        Table::Gate(gate) => out.push_str(gate_word(gate)),
        Table::Udp(number) => write!(out, "primitive {number}"),
    }
}

fn gate_word(gate: Gate) -> &'static str {
    match gate {
        Gate::And => "and",
        Gate::Nand => "nand",
        Gate::Or => "or",
        Gate::Nor => "nor",
        Gate::Xor => "xor",
        Gate::Xnor => "xnor",
        Gate::Buf => "buf",
        Gate::Not => "not",
    }
}

fn print_register(
    out: &mut String,
    design: &Design,
    latching: &Latching,
) -> Result<(), AllocError> {
    let udp = latching.udp;
    let start = value_word(latching.start);
    write!(out, "register {udp} start {start}")?;
    print_pins(out, design, latching.pins.as_slice(), latching.clocks)
}

fn value_word(value: Value) -> &'static str {
    match value {
        Value::Zero => "0",
        Value::One => "1",
        Value::X => "x",
        Value::Z => "z",
    }
}

/// The pins, each clock pin with a star.
fn print_pins(
    out: &mut String,
    design: &Design,
    pins: &[Pin],
    clocks: u16,
) -> Result<(), AllocError> {
    let mut left = clocks;
    for pin in pins {
        print_pin(out, design, *pin)?;
        if left % 2 == 1 {
            out.push('*')?;
        }
        left /= 2;
    }
    Ok(())
}

fn print_pin(out: &mut String, design: &Design, pin: Pin) -> Result<(), AllocError> {
    out.push(' ')?;
    match pin {
        Pin::Net(net) => match design.nets.as_slice().get(net as usize) {
            Some(net) => print_name(out, net.path.parts.as_slice(), net.path.bit),
            None => out.push_str("no net"),
        },
        Pin::Bit(bit) => print_bit(out, bit),
        Pin::Dead => out.push_str("dead"),
    }
}
