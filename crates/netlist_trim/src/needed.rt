//! What a top needs: each definition that is come to from its own by what definitions mention.

ghost use Rattle.std.specs.Prelude.{◌≡◌, ◌<◌, IfOk, OnOk, length};
ghost use Rattle.netlist_trim.specs.Needed.{first_named};
ghost use Rattle.netlist_trim.specs.Reached.{AreReached, Grows, GrowsFrom, texts_of, with_first};

use crate::library::Library;
use crate::number_set::NumberSet;
use base_lists::Memory;
use std::alloc::{AllocError, Global};

/// The numbers of all definitions that are come to from the one of this number. Time is in proportion to what these
/// mention, memory to how many they are.
pub fn reached(alloc: Global, library: &Library<'_>, top: usize) -> Result<NumberSet, Memory>
    requires { top < length library.now }
    ensures { IfOk result (AreReached library.now top) }
{
    let _ = library.count();
    let mut numbers = NumberSet::new(alloc);
    numbers.add(top)?;
    let mut next = 0;
    'numbers: while let Some(number) = numbers.get(next) {
        add_led(library, number, &mut numbers)?;
        next += 1;
    }
    Ok(numbers)
}

/// Adds what a definition mentions.
fn add_led(library: &Library<'_>, number: usize, numbers: &mut NumberSet) -> Result<(), AllocError>
    requires { number < length library.now }
    ensures { OnOk result (GrowsFrom library.now number numbers.old numbers.new) }
{
    let names = library.definitions()[number].mentions();
    add_names(library, names.as_slice(), numbers)
}

/// Adds the first definitions of some names.
fn add_names(
    library: &Library<'_>,
    names: &[&[u8]],
    numbers: &mut NumberSet,
) -> Result<(), AllocError>
    ensures { OnOk result (Grows library.now (texts_of names.now) numbers.old numbers.new) }
{
    'names: for name in names {
        add_name(library, name, numbers)?;
    }
    Ok(())
}

/// Adds the first definition of a name.
fn add_name(library: &Library<'_>, name: &[u8], numbers: &mut NumberSet) -> Result<(), AllocError>
    ensures { OnOk result (numbers.new ≡ with_first (first_named library.now name.now) numbers.old) }
{
    match library.find(name) {
        Some(number) => numbers.add(number),
        None => Ok(()),
    }
}
