//! The head of a module (IEEE 1364-2005, annex A.1.3).

ghost use Rattle.std.specs.Prelude.{◌≡◌, ◌≤◌, [], length, OnOk, None};
ghost use Rattle.netlist_grammar.specs.Lexemes.{head as head_of};
ghost use Rattle.netlist_grammar.specs.Machine.{goes};
ghost use Rattle.netlist_grammar.specs.Machine.{State as spec};
ghost use Rattle.netlist_grammar.specs.Trees.{Under, under};
ghost use Rattle.netlist_grammar.specs.declared.tree.Source.{Source as source};
ghost use Rattle.netlist_grammar.specs.declared.tree.Word.{Word as word};
ghost use Rattle.netlist_reader.specs.Reads.{ReadsTokens, ReadsHead, BeginsNoPort, Shortens};

use crate::declaration::wire_range;
use crate::reader::Reader;
use netlist_grammar::{Declare, Fixed, Item, NetKind, ParseErr, Word};
use std::alloc::Global;

/// The ports of a module, and what its head declares of them.
#[derive(Drop)]
pub struct Head {
    pub ports: Vec<Word>,
    pub items: Vec<Item>,
}

/// What a port takes from the one before.
#[derive(Clone, Copy)]
pub struct Direction {
    pub what: NetKind,
    pub range: Option<(u32, u32)>,
}

// head = [ "(" [ ports ] ")" ]
#[tactic(auto, using(crate::proofs::Runs::reads_on, crate::proofs::Runs::no_ports))]
pub fn module_head(alloc: Global, tokens: &mut Reader<'_>) -> Result<Head, ParseErr>
    ensures reads { ReadsHead spec.after_name tokens.old result tokens.new }
    ensures shortens { OnOk result (length tokens.new.tokens ≤ length tokens.old.tokens) }
{
    if !tokens.take(Fixed::Open) || tokens.take(Fixed::Close) {
        return Ok(Head {
            ports: Vec::new(alloc),
            items: Vec::new(alloc),
        });
    }
    if tokens.take(Fixed::Input) {
        declared_ports(alloc, NetKind::Input, tokens)
    } else if tokens.take(Fixed::Output) {
        declared_ports(alloc, NetKind::Output, tokens)
    } else {
        plain_ports(alloc, tokens)
    }
}

// name { "," name } ")"
#[tactic(auto, using(crate::proofs::Runs::plain_port))]
fn plain_ports(alloc: Global, tokens: &mut Reader<'_>) -> Result<Head, ParseErr>
    requires { BeginsNoPort (head_of tokens.old).what }
    ensures reads { ReadsHead spec.first_port tokens.old result tokens.new }
    ensures shortens { Shortens tokens.old result tokens.new }
{
    let mut ports = Vec::new(alloc);
    'ports: loop {
        ports.push(tokens.word(alloc)?)?;
        if !tokens.more(Fixed::Close)? {
            return Ok(Head {
                ports,
                items: Vec::new(alloc),
            });
        }
    }
}

// port { "," port } ")", after its first direction
fn declared_ports(alloc: Global, what: NetKind, tokens: &mut Reader<'_>) -> Result<Head, ParseErr>
    ensures reads { ReadsHead (λ b n. spec.port_direction (under b n [] []) what None) tokens.old result tokens.new }
    ensures shortens { Shortens tokens.old result tokens.new }
{
    let mut head = Head {
        ports: Vec::new(alloc),
        items: Vec::new(alloc),
    };
    let mut direction = Direction { what, range: None };
    'ports: loop {
        direction.range = wire_range(tokens, direction.range)?;
        port(alloc, direction, tokens, &mut head.ports, &mut head.items)?;
        if !tokens.more(Fixed::Close)? {
            return Ok(head);
        }
        direction = next_direction(tokens, direction);
    }
}

/// The name of a port.
fn port(
    alloc: Global,
    direction: Direction,
    tokens: &mut Reader<'_>,
    ports: &mut Vec<Word>,
    items: &mut Vec<Item>,
) -> Result<(), ParseErr>
    ensures reads { (b : source) (n : word)
        → ReadsTokens (spec.port_name (under b n ports.old.items items.old.items) direction.what direction.range)
        tokens.old result
        (λ _. spec.after_declared_port (under b n ports.new.items items.new.items) direction.what
        direction.range) tokens.new }
    ensures shortens { Shortens tokens.old result tokens.new }
{
    let name = tokens.name()?;
    ports.push(name.word(alloc)?)?;
    items.push(Item::Declare(Declare {
        what: direction.what,
        range: direction.range,
        name: name.word(alloc)?,
        value: None,
    }))?;
    Ok(())
}

/// The direction of a port, which is that of the port before where none stands here.
#[tactic(auto, using(crate::proofs::Runs::undirected))]
fn next_direction(tokens: &mut Reader<'_>, had: Direction) -> Direction
    ensures reads { (u : Under)
        → goes (spec.declared_port u had.what had.range) tokens.old
        ≡ goes (spec.port_direction u result.what result.range) tokens.new }
    ensures shortens { length tokens.new.tokens ≤ length tokens.old.tokens }
{
    if tokens.take(Fixed::Input) {
        Direction {
            what: NetKind::Input,
            range: None,
        }
    } else if tokens.take(Fixed::Output) {
        Direction {
            what: NetKind::Output,
            range: None,
        }
    } else {
        had
    }
}
