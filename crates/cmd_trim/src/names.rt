//! Lists of names, which commas join.

ghost use Rattle.std.specs.Prelude.{◌≡◌, ◌==◌, ◌<◌, ◌↔◌, IfOk, IsTrue, drop, length};
ghost use Rattle.std.specs.List.{position_or_len};
ghost use Rattle.base_line.specs.Line.{pieces_of};
ghost use Rattle.netlist_stub.specs.Known.{texts_of};
ghost use Rattle.cmd_trim.specs.Words.{AreNames, names_in, text_in};

use base_lists::Memory;
use std::alloc::Global;

/// Whether no name of a list is empty, if there is a list.
pub fn are_names(list: Option<&str>) -> bool
    ensures { IsTrue result ↔ AreNames (names_in (text_in list.entry)) }
{
    match list {
        Some(list) => is_list(list.as_bytes()),
        None => true,
    }
}

fn is_list(list: &[u8]) -> bool
    ensures { IsTrue result ↔ AreNames (pieces_of 44 list.now) }
{
    let mut rest = list;
    let mut place = comma_in(rest);
    'names: while place < rest.len() {
        if !is_name(&rest[..place]) {
            return false;
        }
        rest = after(rest, place);
        place = comma_in(rest);
    }
    is_name(rest)
}

fn is_name(name: &[u8]) -> bool
    ensures { IsTrue result ↔ (0 < length name.now) }
{
    !name.is_empty()
}

/// The names of a list, none where there is no list.
pub fn names_of<'a>(alloc: Global, list: Option<&'a str>) -> Result<Vec<&'a [u8]>, Memory>
    ensures { IfOk result (λ names. texts_of names.items ≡ names_in (text_in list.entry)) }
{
    match list {
        Some(list) => cut(alloc, list.as_bytes()),
        None => Ok(Vec::new(alloc)),
    }
}

fn cut<'a>(alloc: Global, list: &'a [u8]) -> Result<Vec<&'a [u8]>, Memory>
    ensures { IfOk result (λ names. texts_of names.items ≡ pieces_of 44 list.now) }
{
    let mut names = Vec::new(alloc);
    let mut rest = list;
    let mut place = comma_in(rest);
    'names: while place < rest.len() {
        names.push(&rest[..place])?;
        rest = after(rest, place);
        place = comma_in(rest);
    }
    names.push(rest)?;
    Ok(names)
}

/// The place of the first comma, and the length where there is none.
fn comma_in(list: &[u8]) -> usize
    ensures { result ≡ position_or_len (λ b. b == 44) list.now }
{
    let mut place = 0;
    'bytes: while place < list.len() {
        if list[place] == b',' {
            return place;
        }
        place += 1;
    }
    place
}

/// What stands after a place.
fn after(list: &[u8], place: usize) -> &[u8]
    requires { place < length list.now }
    ensures { result.now ≡ drop 1 (drop place list.now) }
{
    let (_, here) = list.split_at(place);
    let (_, rest) = here.split_at(1);
    rest
}
