//! The names of nets.

ghost use Rattle.std.specs.Prelude.{◌≡◌, ◌++◌, OnOk, codes, decimal};
ghost use Rattle.design_circuit.specs.Name as spec;

use base_lists::Items;
use itoa::Buffer;
use std::alloc::AllocError;

/// Bytes that contracts see as a list.
pub type Bytes = Items<u8>;

/// One part of a name: an instance's name, or the net's own.
#[derive(Debug, Drop)]
pub struct NamePart {
    /// Without the backslash of an escaped name.
    pub text: Bytes,
    /// Whether it is written with a backslash and a space behind (IEEE 1364-2005, clause 3).
    pub escaped: bool,
}

/// The name of a net: the instances below the top that lead to it, then its own name, and the index of a vector's bit.
#[derive(Debug, Drop)]
pub struct Name {
    /// One or more.
    pub parts: Items<NamePart>,
    /// At most 2^31 - 1.
    pub bit: Option<u32>,
}

/// Puts a name as it is written: its parts joined by dots, and an index in brackets behind.
pub(crate) fn put_name(text: &mut Vec<u8>, name: &Name) -> Result<(), AllocError>
    ensures { OnOk result (text.new.items ≡ text.old.items ++ spec.written_name name.now) }
{
    put_parts(text, name.parts.as_slice())?;
    if let Some(index) = name.bit {
        put_index(text, index)?;
    }
    Ok(())
}

fn put_parts(text: &mut Vec<u8>, parts: &[NamePart]) -> Result<(), AllocError>
    ensures { OnOk result (text.new.items ≡ text.old.items ++ spec.written_parts parts.now) }
{
    match parts {
        [] => Ok(()),
        [first, rest @ ..] => {
            put_part(text, first)?;
            put_dotted(text, rest)
        }
    }
}

/// Puts parts, each with a dot before it.
fn put_dotted(text: &mut Vec<u8>, parts: &[NamePart]) -> Result<(), AllocError>
    ensures { OnOk result (text.new.items ≡ text.old.items ++ spec.dotted_parts parts.now) }
{
    'parts: for part in parts {
        text.push(b'.')?;
        put_part(text, part)?;
    }
    Ok(())
}

fn put_part(text: &mut Vec<u8>, part: &NamePart) -> Result<(), AllocError>
    ensures { OnOk result (text.new.items ≡ text.old.items ++ spec.written_part part.now) }
{
    if part.escaped {
        text.push(b'\\')?;
        text.extend_from_slice(part.text.as_slice())?;
        text.push(b' ')?;
    } else {
        text.extend_from_slice(part.text.as_slice())?;
    }
    Ok(())
}

fn put_index(text: &mut Vec<u8>, index: u32) -> Result<(), AllocError>
    ensures { OnOk result (text.new.items ≡ text.old.items ++ (codes "[" ++ decimal index ++ codes "]")) }
{
    let mut digits = Buffer::new();
    text.push(b'[')?;
    text.extend_from_slice(digits.format(index).as_bytes())?;
    text.push(b']')?;
    Ok(())
}
