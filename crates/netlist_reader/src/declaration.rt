//! Declarations (IEEE 1364-2005, annex A.2).

ghost use Rattle.std.specs.Prelude.{◌≡◌, ◌≤◌, length, OnOk, None, Some, cond};
ghost use Rattle.netlist_grammar.specs.Machine.{Ranged, after_range};
ghost use Rattle.netlist_grammar.specs.Machine.{State as spec};
ghost use Rattle.netlist_grammar.specs.Trees.{Under, takes_value};
ghost use Rattle.netlist_grammar.specs.declared.tree.NetKind.{NetKind as net_kinds};
ghost use Rattle.netlist_reader.specs.Reads.{ReadsTokens, ReadsItems, Shortens};

use crate::expression::expr;
use crate::reader::Reader;
use crate::skip::may_delay;
use netlist_grammar::{Declare, Fixed, Item, NetKind, ParseErr};
use std::alloc::Global;

// range = "[" int ":" int "]", after its "["
fn range(tokens: &mut Reader<'_>) -> Result<(u32, u32), ParseErr>
    ensures reads { (k : Ranged)
        → ReadsTokens (spec.range_first k) tokens.old result (λ r. after_range k (Some r)) tokens.new }
    ensures shortens { Shortens tokens.old result tokens.new }
{
    let first = tokens.int()?;
    tokens.expect(Fixed::Colon)?;
    let second = tokens.int()?;
    tokens.expect(Fixed::SquareClose)?;
    Ok((first, second))
}

// [ "wire" ] [ range ]
/// The range of ports, which is that of the port before where none stands here.
pub fn wire_range(
    tokens: &mut Reader<'_>,
    had: Option<(u32, u32)>,
) -> Result<Option<(u32, u32)>, ParseErr>
    ensures port { (u : Under) (what : net_kinds)
        → ReadsTokens (spec.port_direction u what had) tokens.old result (λ r. spec.port_name u what r) tokens.new }
    ensures declared { had ≡ None → (u : Under) (what : net_kinds)
        → ReadsTokens (spec.direction u what) tokens.old result (λ r. spec.declared_name u what r) tokens.new }
    ensures shortens { OnOk result (length tokens.new.tokens ≤ length tokens.old.tokens) }
{
    let _ = tokens.take(Fixed::Wire);
    if tokens.take(Fixed::SquareOpen) {
        Ok(Some(range(tokens)?))
    } else {
        Ok(had)
    }
}

// directed = dir [ "wire" ] [ range ] name { "," name } ";", after its dir
#[tactic(auto, using(crate::proofs::Runs::reads_on))]
pub fn directed(
    alloc: Global,
    what: NetKind,
    tokens: &mut Reader<'_>,
    items: &mut Vec<Item>,
) -> Result<(), ParseErr>
    ensures reads { ReadsItems (λ u. spec.direction u what) items.old
        tokens.old result (λ _. spec.in_items) items.new tokens.new }
    ensures shortens { Shortens tokens.old result tokens.new }
{
    let range = wire_range(tokens, None)?;
    names(alloc, what, range, tokens, items)
}

// name { "," name } ";"
pub fn names(
    alloc: Global,
    what: NetKind,
    range: Option<(u32, u32)>,
    tokens: &mut Reader<'_>,
    items: &mut Vec<Item>,
) -> Result<(), ParseErr>
    ensures reads { ReadsItems (λ u. spec.declared_name u what range) items.old
        tokens.old result (λ _. spec.in_items) items.new tokens.new }
    ensures shortens { Shortens tokens.old result tokens.new }
{
    'names: loop {
        let name = tokens.word(alloc)?;
        items.push(Item::Declare(Declare {
            what,
            range,
            name,
            value: None,
        }))?;
        if !tokens.more(Fixed::Semi)? {
            return Ok(());
        }
    }
}

// nets = net [ range ] [ delay ] dname { "," dname } ";", after its net
pub fn nets(
    alloc: Global,
    what: NetKind,
    tokens: &mut Reader<'_>,
    items: &mut Vec<Item>,
) -> Result<(), ParseErr>
    ensures reads { ReadsItems (λ u. spec.net_kind u what) items.old
        tokens.old result (λ _. spec.in_items) items.new tokens.new }
    ensures shortens { Shortens tokens.old result tokens.new }
{
    let range = net_range(tokens)?;
    'nets: while net(alloc, what, range, tokens, items)? {}
    Ok(())
}

// [ range ] [ delay ]
#[tactic(auto, using(crate::proofs::Runs::net_no_range))]
fn net_range(tokens: &mut Reader<'_>) -> Result<Option<(u32, u32)>, ParseErr>
    ensures reads { (u : Under) (what : net_kinds)
        → ReadsTokens (spec.net_kind u what) tokens.old result (λ r. spec.net_name u what r) tokens.new }
    ensures shortens { OnOk result (length tokens.new.tokens ≤ length tokens.old.tokens) }
{
    let mut bits = None;
    if tokens.take(Fixed::SquareOpen) {
        bits = Some(range(tokens)?);
    }
    may_delay(tokens)?;
    Ok(bits)
}

// dname = name [ "=" expr ]
/// Whether one more follows.
fn net(
    alloc: Global,
    what: NetKind,
    range: Option<(u32, u32)>,
    tokens: &mut Reader<'_>,
    items: &mut Vec<Item>,
) -> Result<bool, ParseErr>
    ensures reads { ReadsItems (λ u. spec.net_name u what range) items.old tokens.old result
        (λ more u. cond more (spec.net_name u what range) (spec.in_items u)) items.new tokens.new }
    ensures shortens { Shortens tokens.old result tokens.new }
{
    let name = tokens.word(alloc)?;
    let mut value = None;
    if takes_value(what) && tokens.take(Fixed::Equals) {
        value = Some(expr(alloc, tokens)?);
    }
    items.push(Item::Declare(Declare {
        what,
        range,
        name,
        value,
    }))?;
    tokens.more(Fixed::Semi)
}

fn takes_value(what: NetKind) -> bool
    ensures { result ≡ takes_value what }
{
    matches!(what, NetKind::Wire)
}
