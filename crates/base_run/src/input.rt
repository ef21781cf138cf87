//! The texts that a command reads.

ghost use Rattle.std.specs.Prelude.{◌≡◌, ◌<◌, ◌≤◌, [], ◌∷◌, length, map, string_bytes, IfOk, IfSome, IsSome};
ghost use Rattle.base_run.specs.Inputs.{FileRead, IsTextWithin, Joins, TextRead};
ghost use Rattle.base_shelf.specs.Shelf.{Nothing, Later};

use crate::refusal::Refusal;
use base_shelf::{ReadErr, Shelf, read_all};
use std::alloc::{AllocError, Global};

/// All bytes of a file. More than `limit` are refused by the cause.
pub fn read_input<S: Shelf, C: Drop>(
    alloc: Global,
    shelf: &mut S,
    name: &str,
    limit: usize,
    long: C,
) -> Result<Vec<u8>, Refusal<C>>
    ensures { TextRead S.told (name.now ∷ []) limit long (S.view shelf.old) (S.view shelf.new) result }
{
    match read_file(alloc, shelf, name, limit)? {
        Some(text) => Ok(text),
        None => Err(Refusal::Long { cause: long }),
    }
}

/// All bytes of the files, in their order, with one newline between each two. More than `limit` are refused by the
/// cause, but a file that can't be read counts before that.
pub fn read_inputs<S: Shelf, C: Drop>(
    alloc: Global,
    shelf: &mut S,
    names: &[String],
    limit: usize,
    long: C,
) -> Result<Vec<u8>, Refusal<C>>
    requires { 0 < length names.now }
    ensures { TextRead S.told (map string_bytes names.now) limit long (S.view shelf.old) (S.view shelf.new) result }
{
    let mut text = Some(Vec::new(alloc));
    'files: for (position, name) in names.iter().enumerate() {
        let part = read_file(alloc, shelf, name, limit)?;
        text = join(text, position, part, limit)?;
    }
    match text {
        Some(text) => Ok(text),
        None => Err(Refusal::Long { cause: long }),
    }
}

/// All bytes of a file, none where there are more than `limit`.
fn read_file<S: Shelf, C: Drop>(
    alloc: Global,
    shelf: &mut S,
    name: &str,
    limit: usize,
) -> Result<Option<Vec<u8>>, Refusal<C>>
    ensures { FileRead S.told name.now limit (S.view shelf.old) (S.view shelf.new) result }
{
    let refusal = Refusal::Read {
        name: String::from_str(alloc, name)?,
    };
    match read_all(alloc, shelf, name, limit) {
        Ok(text) => Ok(Some(text)),
        Err(ReadErr::Fault) => {
            give_up(shelf);
            Err(refusal)
        }
        Err(ReadErr::TooLong) => Ok(None),
        Err(ReadErr::Memory) => Err(Refusal::Memory),
    }
}

/// Gives up the file in hand, where a fault is reported already.
fn give_up<S: Shelf>(shelf: &mut S)
    ensures hand { (S.view shelf.new).hand ≡ Nothing }
    ensures files { (S.view shelf.new).files ≡ (S.view shelf.old).files }
    ensures written { (S.view shelf.new).written ≡ (S.view shelf.old).written }
    ensures later { Later (S.view shelf.old) (S.view shelf.new) }
{
    let _ = shelf.close_file();
}

/// A text with the next one after it, none where there are more than `limit` bytes.
fn join(
    text: Option<Vec<u8>>,
    position: usize,
    part: Option<Vec<u8>>,
    limit: usize,
) -> Result<Option<Vec<u8>>, AllocError>
    ensures fits { IfOk result (λ whole. IfSome whole (λ v. length v.items ≤ limit)) }
    ensures first { IfOk result (λ whole. IsSome whole → IsSome text) }
    ensures both { IfOk result (λ whole. IfSome whole (λ v. IsSome part)) }
    ensures joined { IfOk result (Joins limit position text part) }
{
    let Some(mut text) = text else {
        return Ok(None);
    };
    let Some(part) = part else {
        return Ok(None);
    };
    if position > 0 {
        text.push(b'\n')?;
    }
    text.extend_from_slice(part.as_slice())?;
    Ok(within(text, limit))
}

/// A text, none where there are more than `limit` bytes.
fn within(text: Vec<u8>, limit: usize) -> Option<Vec<u8>>
    ensures kept { IsTextWithin limit result text.items }
    ensures fits { IfSome result (λ v. length v.items ≤ limit) }
{
    if text.len() > limit {
        return None;
    }
    Some(text)
}
