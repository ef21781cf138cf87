//! What is kept of a text.

ghost use Rattle.std.specs.Prelude.{◌≡◌, ◌<◌, List, ℕ, Result, Err, IfErr, IfOk, None, Ok, Some, length};
ghost use Rattle.netlist_trim.specs.Needed.{first_named};
ghost use Rattle.netlist_trim.specs.Trims.{AnswersTrim, IfTrimRefused, IsDefined, IsUndefined, Keeps, TrimComes};
ghost use Rattle.netlist_trim.specs.declared.fault.TrimFault.{TrimFault};
ghost use Rattle.netlist_trim.specs.declared.fault.TrimFault.TheVariants.{NoTop};

use crate::copies::put_copies;
use crate::definition::read_definitions;
use crate::fault::{TrimErr, TrimFault};
use crate::library::Library;
use crate::needed::reached;
use crate::reader::Reader;
use base_lists::{Items, Memory};
use std::alloc::Global;

/// The definitions of a text that a top needs, in their order, each byte for byte with a newline after it. Time and
/// memory are in proportion to the text.
pub fn trim(alloc: Global, text: &[u8], top: &[u8]) -> Result<Vec<u8>, TrimErr>
    // What is answered is what the text comes to.
    ensures trimmed { IfOk result (λ out. TrimComes text.now top.now (Ok out.items)) }
    ensures refused { IfErr result (IfTrimRefused (λ fault. TrimComes text.now top.now (Err fault))) }

    // What it comes to is answered, unless memory runs out.
    ensures exact { (outcome : Result (List ℕ) TrimFault) → TrimComes text.now top.now outcome
        → AnswersTrim result outcome }
{
    outcome_of(alloc, text, top)
}

/// What a text comes to.
fn outcome_of(alloc: Global, text: &[u8], top: &[u8]) -> Result<Vec<u8>, TrimErr>
    ensures trimmed { IfOk result (λ out. TrimComes text.now top.now (Ok out.items)) }
    ensures refused { IfErr result (IfTrimRefused (λ fault. TrimComes text.now top.now (Err fault))) }
{
    let library = library_of(alloc, text)?;
    match library.find(top) {
        Some(number) => Ok(kept(alloc, text, &library, number)?),
        None => Err(no_top(alloc, top)),
    }
}

/// What a text defines.
fn library_of<'t>(alloc: Global, text: &'t [u8]) -> Result<Library<'t>, TrimErr>
    ensures defined { IfOk result (IsDefined text.now) }
    ensures refused { IfErr result (IfTrimRefused (IsUndefined text.now)) }
{
    let mut tokens = Reader::new(text);
    let definitions = read_definitions(alloc, &mut tokens)?;
    Ok(Library::new(alloc, definitions)?)
}

/// The copies of all that the definition of a number needs.
fn kept(alloc: Global, text: &[u8], library: &Library<'_>, number: usize) -> Result<Vec<u8>, Memory>
    requires { number < length library.now }
    ensures { (top : List ℕ) → first_named library.now top ≡ Some number
        → IfOk result (λ out. Keeps text.now library.now top library.now out.items) }
{
    let numbers = reached(alloc, library, number)?;
    let mut out = Vec::new(alloc);
    put_copies(text, library, &numbers, library.definitions(), &mut out)?;
    Ok(out)
}

/// No definition has the top's name.
fn no_top(alloc: Global, top: &[u8]) -> TrimErr
    ensures { IfTrimRefused (λ fault. fault ≡ NoTop top.now) result }
{
    match Vec::from_slice(alloc, top) {
        Ok(name) => TrimErr::Refused(TrimFault::NoTop {
            name: Items::from_vec(name),
        }),
        Err(_) => TrimErr::Memory,
    }
}
