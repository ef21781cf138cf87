//! Copies of the definitions that are kept.

ghost use Rattle.std.specs.Prelude.{◌≡◌, ◌∷◌, ◌++◌, [], OnOk, slice_range};
ghost use Rattle.netlist_trim.specs.Copies.{copies, is_among, is_kept};
ghost use Rattle.netlist_trim.specs.Trims.{copy_of};

use crate::definition::Definition;
use crate::library::Library;
use crate::number_set::NumberSet;
use base_lists::{Memory, put};

/// Puts down a copy of each definition whose name's first one is among the numbers.
pub fn put_copies(
    text: &[u8],
    library: &Library<'_>,
    numbers: &NumberSet,
    definitions: &[Definition<'_>],
    out: &mut Vec<u8>,
) -> Result<(), Memory>
    ensures { OnOk result
        (out.new.items ≡ out.old.items ++ copies text.now library.now numbers.now definitions.now) }
{
    'definitions: for definition in definitions {
        put_kept(text, library, numbers, definition, out)?;
    }
    Ok(())
}

/// Puts down a copy of a definition, if it is kept.
fn put_kept(
    text: &[u8],
    library: &Library<'_>,
    numbers: &NumberSet,
    definition: &Definition<'_>,
    out: &mut Vec<u8>,
) -> Result<(), Memory>
    ensures { OnOk result
        (out.new.items ≡ out.old.items ++ copies text.now library.now numbers.now (definition.now ∷ [])) }
{
    if is_kept(library, numbers, definition) {
        put_copy(text, definition, out)?;
    }
    Ok(())
}

fn is_kept(library: &Library<'_>, numbers: &NumberSet, definition: &Definition<'_>) -> bool
    ensures { result ≡ is_kept library.now numbers.now definition.now }
{
    is_among(numbers, library.find(definition.name()))
}

fn is_among(numbers: &NumberSet, number: Option<usize>) -> bool
    ensures { result ≡ is_among numbers.now number }
{
    match number {
        Some(number) => numbers.has(number),
        None => false,
    }
}

/// Puts down a definition, with a newline after it.
fn put_copy(text: &[u8], definition: &Definition<'_>, out: &mut Vec<u8>) -> Result<(), Memory>
    ensures { OnOk result (out.new.items ≡ out.old.items ++ copy_of text.now definition.now) }
{
    put(out, between(text, definition.start(), definition.end()))?;
    put(out, b"\n")
}

/// The bytes of a text from one place up to another.
fn between(text: &[u8], from: usize, to: usize) -> &[u8]
    ensures { result.now ≡ slice_range text.now from to }
{
    let end = to.min(text.len());
    if from < end {
        &text[from..end]
    } else {
        &text[..0]
    }
}
