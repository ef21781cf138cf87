//! The line of a refusal.

ghost use Rattle.std.specs.Prelude.{◌≡◌, ◌++◌, IfOk, OnOk};
ghost use Rattle.base_lists.specs.Text.{line};
ghost use Rattle.cmd_trim.specs.Cause.{fault_text, placed_text, stub_fault_text, text_of};

use crate::cause::Refused;
use base_lists::{Memory, put, put_number};
use netlist_stub::StubFault;
use netlist_trim::TrimFault;
use std::alloc::Global;

/// The line of a refusal, with its newline.
pub fn line_of(alloc: Global, refused: &Refused) -> Result<Vec<u8>, Memory>
    ensures { IfOk result (λ bytes. bytes.items ≡ line (text_of refused.now)) }
{
    let mut text = Vec::new(alloc);
    put_text(alloc, &mut text, refused)?;
    text.push(b'\n')?;
    Ok(text)
}

fn put_text(alloc: Global, text: &mut Vec<u8>, refused: &Refused) -> Result<(), Memory>
    ensures { OnOk result (text.new.items ≡ text.old.items ++ text_of refused.now) }
{
    match refused {
        Refused::Long => put(text, b"refused: too large netlist"),
        Refused::Stub(fault) => put_stub_fault(alloc, text, fault),
        Refused::Text(fault) => put_fault(alloc, text, fault),
    }
}

fn put_stub_fault(alloc: Global, text: &mut Vec<u8>, fault: &StubFault) -> Result<(), Memory>
    ensures { OnOk result (text.new.items ≡ text.old.items ++ stub_fault_text fault.now) }
{
    match fault {
        StubFault::Text(fault) => put_fault(alloc, text, fault),
        StubFault::Unexpected { at } => put_placed(text, *at, b"unexpected"),
        StubFault::Range { at } => put_placed(text, *at, b"unknown range"),
        StubFault::Supply { at } => put_placed(text, *at, b"inout"),
        StubFault::Undirected { at } => put_placed(text, *at, b"no direction"),
    }
}

fn put_fault(alloc: Global, text: &mut Vec<u8>, fault: &TrimFault) -> Result<(), Memory>
    ensures { OnOk result (text.new.items ≡ text.old.items ++ fault_text fault.now) }
{
    match fault {
        TrimFault::Token(fault) => {
            let words = format!(in alloc; "{fault}")?;
            put_placed(text, fault.at(), words.as_bytes())
        }
        TrimFault::Open { at } => put_placed(text, *at, b"open definition"),
        TrimFault::NoTop { name } => {
            put_both(text, b"refused: netlist: no module ", name.as_slice())
        }
    }
}

fn put_placed(text: &mut Vec<u8>, at: usize, words: &[u8]) -> Result<(), Memory>
    ensures { OnOk result (text.new.items ≡ text.old.items ++ placed_text at words.now) }
{
    put(text, b"refused: netlist at ")?;
    put_number(text, at as u64)?;
    put(text, b": ")?;
    put(text, words)
}

fn put_both(text: &mut Vec<u8>, first: &[u8], second: &[u8]) -> Result<(), Memory>
    ensures { OnOk result (text.new.items ≡ text.old.items ++ (first.now ++ second.now)) }
{
    put(text, first)?;
    put(text, second)
}
