//! Gates, instances and assignments (IEEE 1364-2005, annexes A.3, A.4 and A.6.1).

ghost use Rattle.std.specs.Prelude.{◌≡◌, ℕ, ◌++◌, ◌∷◌, [], List, Option, Some, None, option_map, IfOk, cond};
ghost use Rattle.netlist_grammar.specs.Machine.{State as spec};
ghost use Rattle.netlist_grammar.specs.Machine.Context.{terminal, left as left_of};
ghost use Rattle.netlist_grammar.specs.Trees.{Under, with_item, gate_of, instance_of};
ghost use Rattle.netlist_grammar.specs.declared.tree.Connections.TheVariants.{Positional};
ghost use Rattle.netlist_grammar.specs.declared.tree.GateKind.{GateKind as gate_kinds};
ghost use Rattle.netlist_grammar.specs.declared.tree.NamedConnection.{NamedConnection as named_kind};
ghost use Rattle.netlist_grammar.specs.declared.tree.Word.{Word as word};
ghost use Rattle.netlist_reader.specs.Reads.{ReadsTokens, ReadsItems, ReadsConnections, Shortens};
ghost use Rattle.netlist_reader.specs.Shown.{word_of_name};

use crate::expression::expr;
use crate::lexeme::Name;
use crate::reader::Reader;
use crate::skip::may_delay;
use base_lists::Items;
use netlist_grammar::{
    Connection, Connections, Expr, Fixed, GateItem, GateKind, InstanceItem, Item, NamedConnection,
    ParseErr, Word,
};
use std::alloc::{AllocError, Global};

// gates = kind [ delay ] gate { "," gate } ";", after its kind
pub fn gates(
    alloc: Global,
    kind: GateKind,
    at: usize,
    tokens: &mut Reader<'_>,
    items: &mut Vec<Item>,
) -> Result<(), ParseErr>
    ensures reads { ReadsItems (λ u. spec.gate_kind u kind at) items.old
        tokens.old result (λ _. spec.in_items) items.new tokens.new }
    ensures shortens { Shortens tokens.old result tokens.new }
{
    may_delay(tokens)?;
    'gates: while gate(alloc, kind, at, tokens, items)? {}
    Ok(())
}

// gate = [ name ] "(" expr { "," expr } ")"
/// Whether one more follows.
fn gate(
    alloc: Global,
    kind: GateKind,
    at: usize,
    tokens: &mut Reader<'_>,
    items: &mut Vec<Item>,
) -> Result<bool, ParseErr>
    ensures reads { ReadsItems (λ u. spec.gate_name u kind at) items.old tokens.old result
        (λ more u. cond more (spec.gate_name u kind at) (spec.in_items u)) items.new tokens.new }
    ensures shortens { Shortens tokens.old result tokens.new }
{
    let _ = tokens.take_name();
    tokens.expect(Fixed::Open)?;
    let terminals = terminals(alloc, tokens)?;
    items.push(Item::Gate(GateItem {
        kind,
        at,
        terminals: Items::from_vec(terminals),
    }))?;
    tokens.more(Fixed::Semi)
}

// expr { "," expr } ")"
fn terminals(alloc: Global, tokens: &mut Reader<'_>) -> Result<Vec<Expr>, ParseErr>
    ensures reads { (u : Under) (kind : gate_kinds) (at : ℕ)
        → ReadsTokens (spec.expr_start (terminal u kind at [])) tokens.old result
        (λ es. spec.after_gate (with_item u (gate_of kind at es.items)) kind at) tokens.new }
    ensures shortens { Shortens tokens.old result tokens.new }
{
    let mut list = Vec::new(alloc);
    'list: loop {
        list.push(expr(alloc, tokens)?)?;
        if !tokens.more(Fixed::Close)? {
            return Ok(list);
        }
    }
}

// assigns = "assign" [ delay ] assign { "," assign } ";", after its keyword; assign = expr "=" expr
pub fn assigns(
    alloc: Global,
    tokens: &mut Reader<'_>,
    items: &mut Vec<Item>,
) -> Result<(), ParseErr>
    ensures reads { ReadsItems spec.assign items.old tokens.old result (λ _. spec.in_items) items.new tokens.new }
    ensures shortens { Shortens tokens.old result tokens.new }
{
    may_delay(tokens)?;
    'assigns: loop {
        let left = expr(alloc, tokens)?;
        tokens.expect(Fixed::Equals)?;
        let right = expr(alloc, tokens)?;
        items.push(Item::Assign(left, right))?;
        if !tokens.more(Fixed::Semi)? {
            return Ok(());
        }
    }
}

// instances = name [ delay ] instance { "," instance } ";", after its name
pub fn instances(
    alloc: Global,
    definition: Name<'_>,
    tokens: &mut Reader<'_>,
    items: &mut Vec<Item>,
) -> Result<(), ParseErr>
    ensures reads { let d = word_of_name definition.entry in
        ReadsItems (λ u. spec.definition u d) items.old tokens.old result (λ _. spec.in_items) items.new tokens.new }
    ensures shortens { Shortens tokens.old result tokens.new }
{
    may_delay(tokens)?;
    'instances: while instance(alloc, definition, tokens, items)? {}
    Ok(())
}

// instance = [ name ] "(" [ connections ] ")"
/// Whether one more follows.
fn instance(
    alloc: Global,
    definition: Name<'_>,
    tokens: &mut Reader<'_>,
    items: &mut Vec<Item>,
) -> Result<bool, ParseErr>
    ensures reads { let d = word_of_name definition.entry in
        ReadsItems (λ u. spec.instance_name u d) items.old tokens.old result
        (λ more u. cond more (spec.instance_name u d) (spec.in_items u)) items.new tokens.new }
    ensures shortens { Shortens tokens.old result tokens.new }
{
    let name = tokens.take_name();
    tokens.expect(Fixed::Open)?;
    let connections = connections(alloc, tokens)?;
    items.push(Item::Instance(InstanceItem {
        definition: definition.word(alloc)?,
        name: may_word(alloc, name)?,
        connections,
    }))?;
    tokens.more(Fixed::Semi)
}

fn may_word(alloc: Global, name: Option<Name<'_>>) -> Result<Option<Word>, AllocError>
    ensures { IfOk result (λ w. w ≡ option_map word_of_name name.entry) }
{
    match name {
        Some(name) => Ok(Some(name.word(alloc)?)),
        None => Ok(None),
    }
}

// [ positional | named ] ")"
#[tactic(auto, using(crate::proofs::Runs::positional_starts, crate::proofs::Runs::reads_on))]
fn connections(alloc: Global, tokens: &mut Reader<'_>) -> Result<Connections, ParseErr>
    ensures reads { ReadsConnections spec.connections tokens.old result tokens.new }
    ensures shortens { Shortens tokens.old result tokens.new }
{
    if tokens.take(Fixed::Close) {
        Ok(Connections::Positional(Items::from_vec(Vec::new(alloc))))
    } else if tokens.take(Fixed::Dot) {
        named(alloc, tokens)
    } else {
        positional(alloc, tokens)
    }
}

// positional = [ expr ] { "," [ expr ] }, up to its ")"
fn positional(alloc: Global, tokens: &mut Reader<'_>) -> Result<Connections, ParseErr>
    ensures reads { ReadsConnections (λ u d n. spec.connection u d n []) tokens.old result tokens.new }
    ensures shortens { Shortens tokens.old result tokens.new }
{
    let mut list = Vec::new(alloc);
    'list: while connection(alloc, tokens, &mut list)? {}
    Ok(Connections::Positional(Items::from_vec(list)))
}

// [ expr ]
/// Whether one more follows.
#[tactic(auto, using(crate::proofs::Runs::connection_starts, crate::proofs::Runs::reads_on))]
fn connection(
    alloc: Global,
    tokens: &mut Reader<'_>,
    list: &mut Vec<Connection>,
) -> Result<bool, ParseErr>
    ensures reads { (u : Under) (d : word) (n : Option word)
        → ReadsTokens (spec.connection u d n list.old.items) tokens.old result
        (λ more. cond more (spec.connection u d n list.new.items)
        (spec.after_instance (with_item u (instance_of d n (Positional list.new.items))) d)) tokens.new }
    ensures shortens { Shortens tokens.old result tokens.new }
{
    let at = tokens.at();
    if tokens.take(Fixed::Close) {
        list.push(Connection { at, value: None })?;
        return Ok(false);
    }
    if tokens.take(Fixed::Comma) {
        list.push(Connection { at, value: None })?;
        return Ok(true);
    }
    let value = expr(alloc, tokens)?;
    list.push(Connection {
        at: value.at,
        value: Some(value),
    })?;
    tokens.more(Fixed::Close)
}

// named = connection { "," connection }, after its first "." and up to its ")"
fn named(alloc: Global, tokens: &mut Reader<'_>) -> Result<Connections, ParseErr>
    ensures reads { ReadsConnections (λ u d n. spec.connection_port u d n []) tokens.old result tokens.new }
    ensures shortens { Shortens tokens.old result tokens.new }
{
    let mut list = Vec::new(alloc);
    'list: loop {
        list.push(named_connection(alloc, tokens)?)?;
        if !tokens.more(Fixed::Close)? {
            return Ok(Connections::Named(Items::from_vec(list)));
        }
        tokens.expect(Fixed::Dot)?;
    }
}

// connection = "." name "(" [ expr ] ")", after its "."
#[tactic(auto, using(crate::proofs::Runs::named_starts))]
fn named_connection(alloc: Global, tokens: &mut Reader<'_>) -> Result<NamedConnection, ParseErr>
    ensures reads { (u : Under) (d : word) (n : Option word) (cs : List named_kind)
        → ReadsTokens (spec.connection_port u d n cs)
        tokens.old result (λ c. spec.after_connection u d n (cs ++ c ∷ [])) tokens.new }
    ensures shortens { Shortens tokens.old result tokens.new }
{
    let port = tokens.word(alloc)?;
    tokens.expect(Fixed::Open)?;
    if tokens.take(Fixed::Close) {
        return Ok(NamedConnection { port, value: None });
    }
    let value = expr(alloc, tokens)?;
    tokens.expect(Fixed::Close)?;
    Ok(NamedConnection {
        port,
        value: Some(value),
    })
}
