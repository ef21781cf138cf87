//! Whole texts.

ghost use Rattle.std.specs.Prelude.{◌≡◌, IfOk, IfErr, IfSome, MatchResult};
ghost use Rattle.netlist_grammar.specs.Fault.{fault_in};
ghost use Rattle.netlist_grammar.specs.Machine.{Answers};
ghost use Rattle.netlist_grammar.specs.Source.{IsTree, IsRefused};
ghost use Rattle.netlist_grammar.specs.Whole.{IsWhole};
ghost use Rattle.netlist_grammar.specs.declared.refusal.ParseErr.TheVariants.{Memory};
ghost use Rattle.netlist_grammar.specs.declared.tree.Source.{Source as source_of};

use crate::module::module;
use crate::primitive::primitive;
use crate::reader::Reader;
use crate::skip::attribute;
use base_lists::Items;
use netlist_grammar::{Fixed, ParseErr, Source};
use std::alloc::Global;

/// What a netlist text stands for. The names of the tree are copies, so the text may be let go. Time and memory are in
/// proportion to the text and to the tree, where the name of a definition stands once for each of its instances.
pub fn parse(alloc: Global, bytes: &[u8]) -> Result<Source, ParseErr>
    // What is read is in the grammar.
    ensures found { IfOk result (IsTree bytes.now) }
    ensures whole { IfOk result IsWhole }

    // What is in the grammar is read, unless memory runs out, and as one tree.
    ensures only { (tree : source_of) → IsTree bytes.now tree
        → MatchResult result (λ found. found ≡ tree) (λ e. e ≡ Memory) }

    // A refusal is that of the first token with which no text of the grammar goes on.
    ensures first { IfErr result (λ e. IfSome (fault_in e) (IsRefused bytes.now)) }
{
    let mut tokens = Reader::new(bytes);
    source(alloc, &mut tokens)
}

// text = { attribute | module | primitive }
fn source(alloc: Global, tokens: &mut Reader<'_>) -> Result<Source, ParseErr>
    ensures { Answers result tokens.old }
{
    let mut modules = Vec::new(alloc);
    let mut primitives = Vec::new(alloc);
    'texts: loop {
        if tokens.take(Fixed::Module) {
            modules.push(module(alloc, tokens)?)?;
        } else if tokens.take(Fixed::Primitive) {
            primitives.push(primitive(alloc, tokens)?)?;
        } else if tokens.take(Fixed::Open) {
            attribute(tokens)?;
        } else {
            tokens.end()?;
            return Ok(Source {
                modules: Items::from_vec(modules),
                primitives: Items::from_vec(primitives),
            });
        }
    }
}
