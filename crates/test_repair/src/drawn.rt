//! Jobs that are drawn from a seed: gates and cells over three inputs and three registers, four moments.

use crate::recording::put_vcd;
use std::alloc::{AllocError, Global};
use std::fmt::Write;

/// The nets that gates may read at first: the inputs `i0` to `i2` and the registers `q0` to `q2`.
const FIRST: u64 = 6;

/// A linear congruential generator, whose lowest bits aren't drawn.
#[derive(Clone, Copy)]
struct Draw {
    state: u64,
}

impl Draw {
    /// A number below a bound, or 0.
    fn below(&mut self, bound: u64) -> u64 {
        self.state = self
            .state
            .wrapping_mul(6364136223846793005)
            .wrapping_add(1442695040888963407);
        (self.state >> 33).checked_rem(bound).unwrap_or(0)
    }
}

/// Puts a module of so many gates behind a netlist, and gives the recording its moments.
pub fn put_drawn(
    alloc: Global,
    netlist: &mut Vec<u8>,
    recording: &mut Vec<u8>,
    seed: u64,
    gates: u64,
) -> Result<(), AllocError> {
    let mut draw = Draw { state: seed };
    put_netlist(alloc, netlist, &mut draw, gates)?;
    put_recording(alloc, recording, &mut draw)
}

fn put_netlist(
    alloc: Global,
    netlist: &mut Vec<u8>,
    draw: &mut Draw,
    gates: u64,
) -> Result<(), AllocError> {
    let mut text = String::new(alloc);
    put_module(&mut text, draw, gates)?;
    netlist.extend_from_slice(text.as_str().as_bytes())
}

fn put_recording(
    alloc: Global,
    recording: &mut Vec<u8>,
    draw: &mut Draw,
) -> Result<(), AllocError> {
    let mut short = String::new(alloc);
    put_moments(&mut short, draw)?;
    put_vcd(alloc, recording, short.as_str())
}

fn put_module(text: &mut String, draw: &mut Draw, gates: u64) -> Result<(), AllocError> {
    text.push_str("module top(ck, i0, i1, i2);\ninput ck, i0, i1, i2; wire q0, q1, q2;\n")?;
    put_gates(text, draw, gates)?;
    for head in ["dff (q0", "dff0 (q1", "latch (q2"] {
        put_register(text, draw, head, gates)?;
    }
    text.push_str("endmodule\n")
}

fn put_gates(text: &mut String, draw: &mut Draw, gates: u64) -> Result<(), AllocError> {
    for gate in 0..gates {
        put_gate(text, draw, gate)?;
    }
    Ok(())
}

/// A gate of two inputs or a multiplexer, over nets that stand before.
fn put_gate(text: &mut String, draw: &mut Draw, gate: u64) -> Result<(), AllocError> {
    let (kind, pins) = kind_of(draw.below(8));
    write!(text, "wire g{gate}; {kind} (g{gate}")?;
    for _ in 0..pins {
        put_pin(text, draw, gate)?;
    }
    text.push_str(");\n")
}

/// The kind of a number, and how many inputs it has.
fn kind_of(number: u64) -> (&'static str, u64) {
    match number {
        0 => ("and", 2),
        1 => ("nand", 2),
        2 => ("or", 2),
        3 => ("nor", 2),
        4 => ("xor", 2),
        5 => ("xnor", 2),
        _ => ("mux", 3),
    }
}

/// Reads a net, where so many gates stand before.
fn put_pin(text: &mut String, draw: &mut Draw, gates: u64) -> Result<(), AllocError> {
    let (letter, number) = net_of(draw.below(FIRST.saturating_add(gates)));
    write!(text, ", {letter}{number}")
}

/// The name of a net that a gate may read.
fn net_of(number: u64) -> (&'static str, u64) {
    match number {
        0..3 => ("i", number),
        3..6 => ("q", number % 3),
        _ => ("g", number.saturating_sub(FIRST)),
    }
}

/// A register or a latch at the clock.
fn put_register(
    text: &mut String,
    draw: &mut Draw,
    head: &str,
    gates: u64,
) -> Result<(), AllocError> {
    text.push_str(head)?;
    put_pin(text, draw, gates)?;
    text.push_str(", ck);\n")
}

/// Four moments.
fn put_moments(short: &mut String, draw: &mut Draw) -> Result<(), AllocError> {
    for moment in 0..4u8 {
        put_moment(short, draw, moment)?;
    }
    Ok(())
}

fn put_moment(short: &mut String, draw: &mut Draw, moment: u8) -> Result<(), AllocError> {
    write!(short, "#{moment}0 ck={}", moment % 2)?;
    for input in 0..3u8 {
        let bit = bit_of(draw);
        write!(short, " i{input}={bit}")?;
    }
    short.push('\n')
}

/// An input is x in one of four moments.
fn bit_of(draw: &mut Draw) -> &'static str {
    if draw.below(4) == 0 {
        return "x";
    }
    if draw.below(2) == 0 { "0" } else { "1" }
}
