//! What is read and leaves nothing behind: attributes, specify blocks and delays
//! (IEEE 1364-2005, annexes A.2.2.3, A.7 and A.9).

ghost use Rattle.std.specs.Prelude.{◌≡◌, ℕ, ◌≤◌, length, OnOk};
ghost use Rattle.netlist_grammar.specs.Machine.{Place, Delayed, left, after_attr, after_delay};
ghost use Rattle.netlist_grammar.specs.Machine.{State as spec};
ghost use Rattle.netlist_grammar.specs.Trees.{Range, Under};
ghost use Rattle.netlist_grammar.specs.declared.tree.GateKind.{GateKind as gate_kinds};
ghost use Rattle.netlist_grammar.specs.declared.tree.NetKind.{NetKind as net_kinds};
ghost use Rattle.netlist_grammar.specs.declared.tree.Word.{Word as word};
ghost use Rattle.netlist_reader.specs.Reads.{ReadsTokens, Shortens};

use crate::reader::Reader;
use netlist_grammar::{Fixed, ParseErr};

// attribute = "(" "*" tokens "*" ")", after its "("
#[tactic(auto, using(crate::proofs::Runs::star_goes_on))]
pub fn attribute(tokens: &mut Reader<'_>) -> Result<(), ParseErr>
    ensures reads { (k : Place) → ReadsTokens (spec.attr_open k) tokens.old result (λ _. after_attr k) tokens.new }
    ensures shortens { Shortens tokens.old result tokens.new }
{
    tokens.expect(Fixed::Star)?;
    star(tokens)?;
    'stars: while !tokens.take(Fixed::Close) {
        star(tokens)?;
    }
    Ok(())
}

/// Reads up to a star, and after it.
fn star(tokens: &mut Reader<'_>) -> Result<(), ParseErr>
    ensures reads { (k : Place) → ReadsTokens (spec.in_attr k) tokens.old result (λ _. spec.attr_star k) tokens.new }
    ensures shortens { Shortens tokens.old result tokens.new }
{
    'tokens: while !tokens.take(Fixed::Star) {
        tokens.skip()?;
    }
    Ok(())
}

// specify = "specify" tokens "endspecify", after its keyword
pub fn specify(tokens: &mut Reader<'_>) -> Result<(), ParseErr>
    ensures reads { (u : Under) → ReadsTokens (spec.in_specify u) tokens.old result (λ _. spec.in_items u) tokens.new }
    ensures shortens { Shortens tokens.old result tokens.new }
{
    'tokens: while !tokens.take(Fixed::Endspecify) {
        tokens.skip()?;
    }
    Ok(())
}

// [ delay ]
#[tactic(auto, using(crate::proofs::Runs::reads_on, crate::proofs::Runs::no_delay))]
pub fn may_delay(tokens: &mut Reader<'_>) -> Result<(), ParseErr>
    ensures net { (u : Under) (what : net_kinds) (r : Range)
        → ReadsTokens (spec.net_ranged u what r) tokens.old result (λ _. spec.net_name u what r) tokens.new }
    ensures gate { (u : Under) (kind : gate_kinds) (at : ℕ)
        → ReadsTokens (spec.gate_kind u kind at) tokens.old result (λ _. spec.gate_name u kind at) tokens.new }
    ensures instance { (u : Under) (d : word)
        → ReadsTokens (spec.definition u d) tokens.old result (λ _. spec.instance_name u d) tokens.new }
    ensures assign { (u : Under) → ReadsTokens (spec.assign u) tokens.old result (λ _. spec.expr_start (left u)) tokens.new }
    ensures shortens { OnOk result (length tokens.new.tokens ≤ length tokens.old.tokens) }
{
    if tokens.take(Fixed::Hash) {
        delay(tokens)?;
    }
    Ok(())
}

// delay = "#" int [ "." int ] | "#" "(" tokens ")", after its "#"
#[tactic(auto, using(crate::proofs::Runs::reads_on, crate::proofs::Runs::no_fraction))]
fn delay(tokens: &mut Reader<'_>) -> Result<(), ParseErr>
    ensures reads { (k : Delayed) → ReadsTokens (spec.delay k) tokens.old result (λ _. after_delay k) tokens.new }
    ensures shortens { Shortens tokens.old result tokens.new }
{
    if tokens.take(Fixed::Open) {
        return parenthesized(tokens);
    }
    tokens.int()?;
    if tokens.take(Fixed::Dot) {
        tokens.int()?;
    }
    Ok(())
}

/// Reads up to the parenthesis that closes one before.
fn parenthesized(tokens: &mut Reader<'_>) -> Result<(), ParseErr>
    ensures reads { (k : Delayed) → ReadsTokens (spec.in_delay k 0) tokens.old result (λ _. after_delay k) tokens.new }
    ensures shortens { Shortens tokens.old result tokens.new }
{
    let _ = tokens.at();
    let mut depth: u64 = 0;
    'tokens: loop {
        if tokens.take(Fixed::Close) {
            if depth == 0 {
                return Ok(());
            }
            depth -= 1;
        } else if tokens.take(Fixed::Open) {
            depth += 1;
        } else {
            tokens.skip()?;
        }
    }
}
