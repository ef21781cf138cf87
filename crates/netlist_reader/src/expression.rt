//! Expressions (IEEE 1364-2005, annex A.8).

ghost use Rattle.std.specs.Prelude.{◌≡◌, ℕ, List, ◌++◌, ◌∷◌, [], ◌≤◌, length, OnOk, false};
ghost use Rattle.netlist_grammar.specs.Lexemes.{head, is_fixed};
ghost use Rattle.netlist_grammar.specs.Machine.{Context};
ghost use Rattle.netlist_grammar.specs.Machine.{State as spec};
ghost use Rattle.netlist_grammar.specs.declared.fixed.Fixed.TheVariants as fixed;
ghost use Rattle.netlist_grammar.specs.declared.tree.Part.{Part as part_of};
ghost use Rattle.netlist_reader.specs.Reads.{ReadsTokens, Shortens};

use crate::reader::Reader;
use base_lists::Items;
use netlist_grammar::{Expr, Fixed, ParseErr, Part, PartKind, Word};
use std::alloc::Global;

// expr = name | name "[" int "]" | name "[" int ":" int "]" | literal | "{" expr { "," expr } "}"
pub fn expr(alloc: Global, tokens: &mut Reader<'_>) -> Result<Expr, ParseErr>
    ensures reads { (k : Context) → ReadsTokens (spec.expr_start k)
        tokens.old result (λ e. spec.after_part k e.at 0 e.parts) tokens.new }
    ensures shortens { Shortens tokens.old result tokens.new }
{
    let at = tokens.at();
    // most expressions have one part
    let mut parts = Vec::with_capacity(alloc, 1)?;
    let mut depth: u64 = 0;
    'parts: loop {
        'opens: while tokens.take(Fixed::BraceOpen) {
            depth += 1;
        }
        parts.push(part(alloc, tokens)?)?;
        'closes: while depth > 0 && tokens.take(Fixed::BraceClose) {
            depth -= 1;
        }
        if depth == 0 {
            return Ok(Expr {
                at,
                parts: Items::from_vec(parts),
            });
        }
        tokens.expect(Fixed::Comma)?;
    }
}

// part = name | name "[" int "]" | name "[" int ":" int "]" | literal
fn part(alloc: Global, tokens: &mut Reader<'_>) -> Result<Part, ParseErr>
    requires { is_fixed fixed.BraceOpen (head tokens.old).what ≡ false }
    ensures reads { (k : Context) (at d : ℕ) (ps : List part_of)
        → ReadsTokens (spec.expr k at d ps) tokens.old result (λ p. spec.after_part k at d (ps ++ p ∷ [])) tokens.new }
    ensures shortens { Shortens tokens.old result tokens.new }
{
    let at = tokens.at();
    let Some(name) = tokens.take_name() else {
        let (size, value) = tokens.literal()?;
        return Ok(Part {
            at,
            what: PartKind::Literal(size, value),
        });
    };
    let what = select(name.word(alloc)?, tokens)?;
    Ok(Part { at: name.at, what })
}

// [ "[" int [ ":" int ] "]" ]
fn select(name: Word, tokens: &mut Reader<'_>) -> Result<PartKind, ParseErr>
    ensures reads { (k : Context) (at d : ℕ) (ps : List part_of)
        → ReadsTokens (spec.after_part_name k at d ps name) tokens.old result
        (λ what. spec.after_part k at d (ps ++ record { at = name.at; what = what } ∷ [])) tokens.new }
    ensures shortens { OnOk result (length tokens.new.tokens ≤ length tokens.old.tokens) }
{
    if !tokens.take(Fixed::SquareOpen) {
        return Ok(PartKind::Whole(name));
    }
    let first = tokens.int()?;
    if tokens.take(Fixed::SquareClose) {
        return Ok(PartKind::Bit(name, first));
    }
    tokens.expect(Fixed::Colon)?;
    let second = tokens.int()?;
    tokens.expect(Fixed::SquareClose)?;
    Ok(PartKind::Slice(name, first, second))
}
