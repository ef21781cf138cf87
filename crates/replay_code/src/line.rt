//! The line of a code's fault, without its newline.

ghost use Rattle.std.specs.Prelude.{◌≡◌, ◌++◌, OnOk};
ghost use Rattle.replay_code.specs.Fault.{code_line, fault_text};

use crate::fault::CodeFault;
use base_lists::{Memory, put, put_number};
use std::alloc::Global;

/// Puts the line of a code's fault.
pub fn put_code_line(alloc: Global, text: &mut Vec<u8>, fault: &CodeFault) -> Result<(), Memory>
    ensures { OnOk result (text.new.items ≡ text.old.items ++ code_line fault.now) }
{
    let words = format!(in alloc; "{fault}")?;
    put(text, b"refused: code at ")?;
    put_fault(text, fault.at(), words.as_bytes())
}

/// Puts a byte and what is wrong there.
fn put_fault(text: &mut Vec<u8>, at: usize, words: &[u8]) -> Result<(), Memory>
    ensures { OnOk result (text.new.items ≡ text.old.items ++ fault_text at words.now) }
{
    put_number(text, at as u64)?;
    put(text, b": ")?;
    put(text, words)
}
