//! Modules and their items (IEEE 1364-2005, annex A.1).

ghost use Rattle.std.specs.Prelude.{◌≡◌, ◌<◌, length, false, IfSome, IfNone};
ghost use Rattle.netlist_grammar.specs.Lexemes.{head, is_fixed};
ghost use Rattle.netlist_grammar.specs.Machine.{goes};
ghost use Rattle.netlist_grammar.specs.Machine.{State as spec};
ghost use Rattle.netlist_grammar.specs.Trees.{Under, closed, joined, one_module};
ghost use Rattle.netlist_grammar.specs.declared.fixed.Fixed.TheVariants as fixed;
ghost use Rattle.netlist_grammar.specs.declared.tree.Source.{Source as source};
ghost use Rattle.netlist_reader.specs.Reads.{ReadsTokens, ReadsItems, Shortens, BeginsNone, BeginsNoDirection};
ghost use Rattle.netlist_reader.specs.Reads.{BeginsNoNet};

use crate::cell::{assigns, gates, instances};
use crate::declaration::{directed, names, nets};
use crate::head::{Head, module_head};
use crate::reader::Reader;
use crate::skip::{attribute, specify};
use base_lists::Items;
use netlist_grammar::{Fixed, Item, Module, NetKind, ParseErr};
use std::alloc::Global;

// module = "module" name head ";" { item } "endmodule", after its keyword
pub fn module(alloc: Global, tokens: &mut Reader<'_>) -> Result<Module, ParseErr>
    ensures reads { (b : source) → ReadsTokens (spec.module_name b)
        tokens.old result (λ m. spec.top (joined b (one_module m))) tokens.new }
    ensures shortens { Shortens tokens.old result tokens.new }
{
    let name = tokens.name()?;
    let Head { ports, mut items } = module_head(alloc, tokens)?;
    tokens.expect(Fixed::Semi)?;
    fill(alloc, tokens, &mut items)?;
    Ok(Module {
        name: name.word(alloc)?,
        ports: Items::from_vec(ports),
        items: Items::from_vec(items),
    })
}

// { item } "endmodule"
fn fill(alloc: Global, tokens: &mut Reader<'_>, items: &mut Vec<Item>) -> Result<(), ParseErr>
    ensures reads { ReadsItems spec.in_items items.old
        tokens.old result (λ _ u. spec.top (closed u)) items.new tokens.new }
    ensures shortens { Shortens tokens.old result tokens.new }
{
    'items: while !tokens.take(Fixed::Endmodule) {
        item(alloc, tokens, items)?;
    }
    Ok(())
}

// item = attribute | directed | nets | "reg" names | gates | instances | assigns | specify
#[tactic(auto, using(crate::proofs::Runs::reads_on))]
fn item(alloc: Global, tokens: &mut Reader<'_>, items: &mut Vec<Item>) -> Result<(), ParseErr>
    requires { is_fixed fixed.Endmodule (head tokens.old).what ≡ false }
    ensures reads { ReadsItems spec.in_items items.old tokens.old result (λ _. spec.in_items) items.new tokens.new }
    ensures shortens { Shortens tokens.old result tokens.new }
{
    if tokens.take(Fixed::Open) {
        attribute(tokens)?;
        Ok(())
    } else if let Some(what) = take_direction(tokens) {
        directed(alloc, what, tokens, items)
    } else if let Some(what) = take_net(tokens) {
        nets(alloc, what, tokens, items)
    } else if tokens.take(Fixed::Reg) {
        names(alloc, NetKind::Reg, None, tokens, items)
    } else if tokens.take(Fixed::Assign) {
        assigns(alloc, tokens, items)
    } else if tokens.take(Fixed::Specify) {
        specify(tokens)?;
        Ok(())
    } else {
        cell(alloc, tokens, items)
    }
}

// dir = "input" | "output"
fn take_direction(tokens: &mut Reader<'_>) -> Option<NetKind>
    ensures begins { IfSome result (λ what. (u : Under)
        → goes (spec.in_items u) tokens.old ≡ goes (spec.direction u what) tokens.new) }
    ensures shortens { IfSome result (λ _. length tokens.new.tokens < length tokens.old.tokens) }
    ensures none { IfNone result ((tokens.new ≡ tokens.old) × BeginsNoDirection (head tokens.old).what) }
{
    if tokens.take(Fixed::Input) {
        Some(NetKind::Input)
    } else if tokens.take(Fixed::Output) {
        Some(NetKind::Output)
    } else {
        None
    }
}

// net = "wire" | "tri" | "supply0" | "supply1"
fn take_net(tokens: &mut Reader<'_>) -> Option<NetKind>
    ensures begins { IfSome result (λ what. (u : Under)
        → goes (spec.in_items u) tokens.old ≡ goes (spec.net_kind u what) tokens.new) }
    ensures shortens { IfSome result (λ _. length tokens.new.tokens < length tokens.old.tokens) }
    ensures none { IfNone result ((tokens.new ≡ tokens.old) × BeginsNoNet (head tokens.old).what) }
{
    if tokens.take(Fixed::Wire) || tokens.take(Fixed::Tri) {
        Some(NetKind::Wire)
    } else if tokens.take(Fixed::Supply0) {
        Some(NetKind::Supply0)
    } else if tokens.take(Fixed::Supply1) {
        Some(NetKind::Supply1)
    } else {
        None
    }
}

// gates | instances
#[tactic(auto, using(crate::proofs::Runs::reads_on, crate::proofs::Runs::left_out))]
fn cell(alloc: Global, tokens: &mut Reader<'_>, items: &mut Vec<Item>) -> Result<(), ParseErr>
    requires { BeginsNone (head tokens.old).what }
    ensures reads { ReadsItems spec.in_items items.old tokens.old result (λ _. spec.in_items) items.new tokens.new }
    ensures shortens { Shortens tokens.old result tokens.new }
{
    let at = tokens.at();
    if let Some(kind) = tokens.take_gate() {
        return gates(alloc, kind, at, tokens, items);
    }
    if tokens.is_left_out() {
        return Err(ParseErr::OutOfProfile { at });
    }
    let definition = tokens.name()?;
    instances(alloc, definition, tokens, items)
}
