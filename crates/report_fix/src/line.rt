//! The line of a refusal, without its newline.

ghost use Rattle.std.specs.Prelude.{◌≡◌, ◌++◌, OnOk};
ghost use Rattle.report_fix.specs.Fault.{start_line, words_line};

use crate::refusal::StartFault;
use base_lists::{Memory, put, put_number};
use std::alloc::Global;

/// Puts the line of a piece that can't be set.
pub fn put_start_line(alloc: Global, text: &mut Vec<u8>, fault: &StartFault) -> Result<(), Memory>
    ensures { OnOk result (text.new.items ≡ text.old.items ++ start_line fault.now) }
{
    let words = format!(in alloc; "{fault}")?;
    put_words(text, fault.index(), words.as_bytes())
}

/// Puts the number of a piece and what is wrong with it.
fn put_words(text: &mut Vec<u8>, index: usize, words: &[u8]) -> Result<(), Memory>
    ensures { OnOk result (text.new.items ≡ text.old.items ++ words_line index words.now) }
{
    put(text, b"refused: set ")?;
    put_number(text, index as u64)?;
    put(text, b": ")?;
    put(text, words)
}
