//! Lists of names.

ghost use Rattle.std.specs.Prelude.{◌≡◌, [], IfOk, option_copied};
ghost use Rattle.elab_prims.specs.Names as spec;

use elab_names::NameSet;
use netlist_grammar::Word;
use std::alloc::{AllocError, Global};

/// The names of words.
pub(crate) fn names_of<'t>(alloc: Global, words: &'t [Word]) -> Result<Vec<&'t [u8]>, AllocError>
    ensures { IfOk result (λ names. spec.texts names.items ≡ spec.names_of words.now) }
{
    let mut names = Vec::new(alloc);
    'words: for word in words {
        names.push(word.text.as_slice())?;
    }
    Ok(names)
}

/// Whether no name comes twice.
pub(crate) fn are_distinct(alloc: Global, names: &[&[u8]]) -> Result<bool, AllocError>
    ensures { IfOk result (λ distinct. distinct ≡ spec.are_distinct (spec.texts names.now)) }
{
    let mut seen = NameSet::new(alloc);
    'names: for name in names {
        if !seen.add(*name)? {
            return Ok(false);
        }
    }
    Ok(true)
}

/// Whether each of the names is one of the others.
pub(crate) fn are_among(
    alloc: Global,
    others: &[&[u8]],
    names: &[&[u8]],
) -> Result<bool, AllocError>
    ensures { IfOk result (λ among. among ≡ spec.are_among (spec.texts others.now) (spec.texts names.now)) }
{
    let set = set_of(alloc, others)?;
    Ok(has_all(&set, names))
}

/// The names as a set.
fn set_of<'t>(alloc: Global, names: &[&'t [u8]]) -> Result<NameSet<'t>, AllocError>
    ensures { IfOk result (λ set. spec.HasAll set (spec.texts names.now)) }
{
    let mut set = NameSet::new(alloc);
    'names: for name in names {
        set.add(*name)?;
    }
    Ok(set)
}

fn has_all(set: &NameSet<'_>, names: &[&[u8]]) -> bool
    ensures { result ≡ spec.are_among set.now (spec.texts names.now) }
{
    'names: for name in names {
        if !set.has(*name) {
            return false;
        }
    }
    true
}

/// Whether the name stands there once, and no other.
pub(crate) fn is_alone(name: &[u8], names: &[&[u8]]) -> bool
    ensures { result ≡ spec.is_alone name.now (spec.texts names.now) }
{
    match names {
        [other] => name == *other,
        _ => false,
    }
}

/// Whether the name stands there at most once, and no other.
pub(crate) fn is_at_most(name: &[u8], names: &[&[u8]]) -> bool
    ensures { result ≡ spec.is_at_most name.now (spec.texts names.now) }
{
    names.is_empty() || is_alone(name, names)
}
