//! Texts cut at a byte.

ghost use Rattle.std.specs.Prelude.{◌≡◌, ◌<◌, IfOk, length};
ghost use Rattle.base_line.specs.Line.{pieces_of};

use design_circuit::Bytes;
use std::alloc::{AllocError, Global};
use std::mem;

/// The names of a scope, which dots join.
pub fn names_of(alloc: Global, scope: &str) -> Result<Vec<Bytes>, AllocError>
    ensures pieces { IfOk result (λ names. names.items ≡ pieces_of 46 scope.now) }
    ensures some { IfOk result (λ names. 0 < length names.items) }
{
    pieces_of(alloc, scope, b'.')
}

/// The pieces of a text that is cut at a byte, in time linear in the text.
pub fn pieces_of(alloc: Global, text: &str, cut: u8) -> Result<Vec<Bytes>, AllocError>
    ensures pieces { IfOk result (λ pieces. pieces.items ≡ pieces_of cut text.now) }
    ensures some { IfOk result (λ pieces. 0 < length pieces.items) }
{
    let mut pieces = Vec::new(alloc);
    let mut piece = Vec::new(alloc);
    'bytes: for byte in text.as_bytes() {
        if *byte == cut {
            let whole = mem::replace(&mut piece, Vec::new(alloc));
            pieces.push(Bytes::from_vec(whole))?;
        } else {
            piece.push(*byte)?;
        }
    }
    pieces.push(Bytes::from_vec(piece))?;
    Ok(pieces)
}
