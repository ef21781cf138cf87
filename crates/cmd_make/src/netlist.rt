//! The text of a made netlist.

ghost use Rattle.std.specs.Prelude.{◌≡◌, ◌++◌, ◌<◌, ◌≤◌, IfOk, OnOk};
ghost use Rattle.cmd_make.specs.Draw.{after_draw, after_draws};
ghost use Rattle.cmd_make.specs.Netlist as spec;
ghost use Rattle.cmd_make.specs.Pool.{gate_name, member_name, pool_of};

use crate::draws::Draws;
use crate::pool::{REGISTERS, draw_member, put_member, put_numbered};
use base_lists::{Memory, put, put_number};
use std::alloc::Global;

/// The netlist of a number, with so many gates, four registers, a clock and eight inputs: the module `made`.
///
/// Takes the text's bytes, some 45 for each gate, and time linear in the gates.
#[tactic(auto, unfolding(crate::specs::Netlist::netlist_text))]
pub fn made_netlist(alloc: Global, number: u64, gates: u32) -> Result<Vec<u8>, Memory>
    requires { gates ≤ 100000 }
    ensures { IfOk result (λ text. text.items ≡ spec.netlist_text number gates) }
{
    let mut text = Vec::new(alloc);
    let mut draws = Draws { state: number };
    put_dff(&mut text)?;
    put_head(&mut text)?;
    put_wires(&mut text, gates)?;
    put_gates(&mut text, &mut draws, gates)?;
    put_registers(&mut text, &mut draws, gates)?;
    put(&mut text, b"endmodule\n")?;
    Ok(text)
}

/// Puts the primitive of the registers.
#[tactic(auto, unfolding(crate::specs::Netlist::dff_text))]
fn put_dff(text: &mut Vec<u8>) -> Result<(), Memory>
    ensures { OnOk result (text.new.items ≡ text.old.items ++ spec.dff_text) }
{
    put_ports(text)?;
    put_table(text)?;
    put(text, b"endprimitive\n")
}

#[tactic(auto, unfolding(crate::specs::Netlist::dff_ports))]
fn put_ports(text: &mut Vec<u8>) -> Result<(), Memory>
    ensures { OnOk result (text.new.items ≡ text.old.items ++ spec.dff_ports) }
{
    put(text, b"primitive dff(q, d, ck);\n")?;
    put(text, b"  output q; reg q; input d, ck;\n")
}

#[tactic(auto, unfolding(crate::specs::Netlist::dff_table))]
fn put_table(text: &mut Vec<u8>) -> Result<(), Memory>
    ensures { OnOk result (text.new.items ≡ text.old.items ++ spec.dff_table) }
{
    put(text, b"  table\n")?;
    put_rows(text)?;
    put(text, b"  endtable\n")
}

#[tactic(auto, unfolding(crate::specs::Netlist::dff_rows))]
fn put_rows(text: &mut Vec<u8>) -> Result<(), Memory>
    ensures { OnOk result (text.new.items ≡ text.old.items ++ spec.dff_rows) }
{
    put(text, b"    0 r : ? : 0 ;\n")?;
    put(text, b"    1 r : ? : 1 ;\n")?;
    put(text, b"    ? n : ? : - ;\n")?;
    put(text, b"    * ? : ? : - ;\n")
}

/// Puts the head of the module.
#[tactic(auto, unfolding(crate::specs::Netlist::head_text))]
fn put_head(text: &mut Vec<u8>) -> Result<(), Memory>
    ensures { OnOk result (text.new.items ≡ text.old.items ++ spec.head_text) }
{
    put(text, b"module made(ck, i0, i1, i2, i3, i4, i5, i6, i7);\n")?;
    put(text, b"  input ck, i0, i1, i2, i3, i4, i5, i6, i7;\n")?;
    put(text, b"  wire q0, q1, q2, q3;\n")
}

/// Puts the net of each gate.
fn put_wires(text: &mut Vec<u8>, gates: u32) -> Result<(), Memory>
    ensures { OnOk result (text.new.items ≡ text.old.items ++ spec.wire_lines gates) }
{
    'gates: for gate in 0..gates {
        put_wire(text, gate)?;
    }
    Ok(())
}

fn put_wire(text: &mut Vec<u8>, gate: u32) -> Result<(), Memory>
    ensures { OnOk result (text.new.items ≡ text.old.items ++ spec.wire_line gate) }
{
    put(text, b"  wire ")?;
    put_numbered(text, b"g", gate as u64)?;
    put(text, b";\n")
}

/// Puts the gates.
fn put_gates(text: &mut Vec<u8>, draws: &mut Draws, gates: u32) -> Result<(), Memory>
    ensures text { OnOk result (text.new.items ≡ text.old.items ++ spec.gate_lines draws.old.state gates) }
    ensures after { OnOk result (draws.new.state ≡ spec.after_gates draws.old.state gates) }
{
    'gates: for gate in 0..gates {
        put_gate(text, draws, gate)?;
    }
    Ok(())
}

/// Puts a gate, which draws its kind and its two pins.
#[tactic(auto, unfolding(crate::specs::Netlist::gate_line))]
fn put_gate(text: &mut Vec<u8>, draws: &mut Draws, gate: u32) -> Result<(), Memory>
    ensures text { OnOk result (text.new.items ≡ text.old.items ++ spec.gate_line gate draws.old.state) }
    ensures after { OnOk result (draws.new.state ≡ after_draw (after_draw (after_draw draws.old.state))) }
{
    let kind = draws.draw(4);
    let first = draw_member(draws, gate);
    let second = draw_member(draws, gate);
    put_gate_of(text, kind, gate, first, second)
}

// gate = kind "(" output "," first "," second ")" ";"
#[tactic(auto, unfolding(crate::specs::Netlist::gate_text))]
fn put_gate_of(
    text: &mut Vec<u8>,
    kind: u64,
    gate: u32,
    first: u64,
    second: u64,
) -> Result<(), Memory>
    requires { kind < 4 }
    ensures { let more = spec.gate_text (spec.kind_word kind) (gate_name gate) (member_name first) (member_name second)
        in OnOk result (text.new.items ≡ text.old.items ++ more) }
{
    put(text, b"  ")?;
    put(text, kind_word(kind))?;
    put(text, b" (")?;
    put_numbered(text, b"g", gate as u64)?;
    put(text, b", ")?;
    put_member(text, first)?;
    put(text, b", ")?;
    put_member(text, second)?;
    put(text, b");\n")
}

fn kind_word(kind: u64) -> &'static [u8]
    requires { kind < 4 }
    ensures { result.now ≡ spec.kind_word kind }
{
    match kind {
        0 => b"and",
        1 => b"nand",
        2 => b"or",
        _ => b"nor",
    }
}

/// Puts the registers, each of which draws its data from the pool of all gates.
fn put_registers(text: &mut Vec<u8>, draws: &mut Draws, gates: u32) -> Result<(), Memory>
    ensures text { OnOk result (text.new.items
        ≡ text.old.items ++ spec.register_lines (pool_of gates) draws.old.state 4) }
    ensures after { OnOk result (draws.new.state ≡ after_draws 4 draws.old.state) }
{
    'registers: for register in 0..REGISTERS {
        let pin = draw_member(draws, gates);
        put_register(text, register, pin)?;
    }
    Ok(())
}

// register = "dff" name "(" output "," data "," "ck" ")" ";"
#[tactic(auto, unfolding(crate::specs::Netlist::register_text))]
fn put_register(text: &mut Vec<u8>, register: u32, pin: u64) -> Result<(), Memory>
    ensures { OnOk result (text.new.items ≡ text.old.items ++ spec.register_text register (member_name pin)) }
{
    put(text, b"  dff r")?;
    put_number(text, register as u64)?;
    put(text, b" (")?;
    put_numbered(text, b"q", register as u64)?;
    put(text, b", ")?;
    put_member(text, pin)?;
    put(text, b", ck);\n")
}
