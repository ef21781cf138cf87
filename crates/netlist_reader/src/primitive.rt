//! User-defined primitives (IEEE 1364-2005, clause 8 and annex A.5).

ghost use Rattle.std.specs.Prelude.{◌≡◌, ◌≤◌, [], ◌∷◌, ◌++◌, false, length, OnOk};
ghost use Rattle.netlist_grammar.specs.Lexemes.{head, is_fixed};
ghost use Rattle.netlist_grammar.specs.Machine.{goes};
ghost use Rattle.netlist_grammar.specs.Machine.{State as spec};
ghost use Rattle.netlist_grammar.specs.Trees.{Within, within, prim_declare, is_sequential as has_reg};
ghost use Rattle.netlist_grammar.specs.Trees.{joined, one_primitive};
ghost use Rattle.netlist_grammar.specs.declared.fixed.Fixed.TheVariants as fixed;
ghost use Rattle.netlist_grammar.specs.declared.tree.Source.{Source as source};
ghost use Rattle.netlist_grammar.specs.declared.tree.Word.{Word as word};
ghost use Rattle.netlist_reader.specs.Reads.{ReadsTokens, ReadsPins, ReadsPortList, Shortens};
ghost use Rattle.netlist_reader.specs.Shown.{word_of_name};

use crate::lexeme::Name;
use crate::reader::Reader;
use crate::table::rows;
use base_lists::Items;
use netlist_grammar::{Fixed, ParseErr, PrimDeclare, PrimKind, Primitive, Word};
use std::alloc::{AllocError, Global};

/// The ports of a primitive, and what its port list declares of them.
#[derive(Drop)]
struct Pins {
    ports: Vec<Word>,
    declarations: Vec<PrimDeclare>,
}

// primitive = "primitive" name "(" pins ")" ";" { declaration } "table" rows "endprimitive", after its keyword
pub fn primitive(alloc: Global, tokens: &mut Reader<'_>) -> Result<Primitive, ParseErr>
    ensures reads { (b : source) → ReadsTokens (spec.primitive_name b)
        tokens.old result (λ p. spec.top (joined b (one_primitive p))) tokens.new }
    ensures shortens { Shortens tokens.old result tokens.new }
{
    let name = tokens.name()?;
    tokens.expect(Fixed::Open)?;
    let Pins {
        ports,
        mut declarations,
    } = port_list(alloc, tokens)?;
    declare_all(alloc, tokens, &mut declarations)?;
    let rows = rows(alloc, is_sequential(&declarations), tokens)?;
    tokens.expect(Fixed::Endprimitive)?;
    Ok(Primitive {
        name: name.word(alloc)?,
        ports: Items::from_vec(ports),
        declarations: Items::from_vec(declarations),
        rows: Items::from_vec(rows),
    })
}

// ";" { declaration } "table"
fn declare_all(
    alloc: Global,
    tokens: &mut Reader<'_>,
    declarations: &mut Vec<PrimDeclare>,
) -> Result<(), ParseErr>
    ensures reads { ReadsPins spec.primitive_head_end declarations.old
        tokens.old result spec.first_row declarations.new tokens.new }
    ensures shortens { Shortens tokens.old result tokens.new }
{
    tokens.expect(Fixed::Semi)?;
    'declarations: while !tokens.take(Fixed::Table) {
        declaration(alloc, tokens, declarations)?;
    }
    Ok(())
}

fn is_sequential(declarations: &[PrimDeclare]) -> bool
    ensures { result ≡ has_reg declarations.now }
{
    declarations
        .iter()
        .any(|declaration| matches!(declaration.what, PrimKind::Reg))
}

// pins = name { "," name } | declared_pins, up to their ")"
#[tactic(auto, using(crate::proofs::Runs::reads_on))]
fn port_list(alloc: Global, tokens: &mut Reader<'_>) -> Result<Pins, ParseErr>
    ensures reads { ReadsPortList spec.first_pin tokens.old result tokens.new }
    ensures shortens { Shortens tokens.old result tokens.new }
{
    if tokens.take(Fixed::Output) {
        declared_pins(alloc, tokens)
    } else {
        plain_pins(alloc, tokens)
    }
}

#[tactic(auto, using(crate::proofs::Runs::plain_pin))]
fn plain_pins(alloc: Global, tokens: &mut Reader<'_>) -> Result<Pins, ParseErr>
    requires { is_fixed fixed.Output (head tokens.old).what ≡ false }
    ensures reads { ReadsPortList spec.first_pin tokens.old result tokens.new }
    ensures shortens { Shortens tokens.old result tokens.new }
{
    let mut ports = Vec::new(alloc);
    'pins: loop {
        ports.push(tokens.word(alloc)?)?;
        if !tokens.more(Fixed::Close)? {
            return Ok(Pins {
                ports,
                declarations: Vec::new(alloc),
            });
        }
    }
}

// declared_pins = "output" output "," "input" name { "," [ "input" ] name }, after its keyword
fn declared_pins(alloc: Global, tokens: &mut Reader<'_>) -> Result<Pins, ParseErr>
    ensures reads { ReadsPortList spec.output_pin tokens.old result tokens.new }
    ensures shortens { Shortens tokens.old result tokens.new }
{
    let mut declarations = Vec::new(alloc);
    let mut ports = output_pin(alloc, tokens, &mut declarations)?;
    input_pins(alloc, tokens, &mut ports, &mut declarations)?;
    Ok(Pins {
        ports,
        declarations,
    })
}

// output [ "=" bit ] ","
fn output_pin(
    alloc: Global,
    tokens: &mut Reader<'_>,
    declarations: &mut Vec<PrimDeclare>,
) -> Result<Vec<Word>, ParseErr>
    requires { declarations.old.items ≡ [] }
    ensures reads { (b : source) (n : word)
        → ReadsTokens (spec.output_pin b n) tokens.old result
        (λ ps. spec.first_input (within b n ps.items declarations.new.items [])) tokens.new }
    ensures shortens { Shortens tokens.old result tokens.new }
{
    let name = output(alloc, tokens, declarations)?;
    start_value(alloc, name, tokens, declarations)?;
    let mut ports = Vec::new(alloc);
    ports.push(name.word(alloc)?)?;
    Ok(ports)
}

// "input" name { "," [ "input" ] name } ")"
fn input_pins(
    alloc: Global,
    tokens: &mut Reader<'_>,
    ports: &mut Vec<Word>,
    declarations: &mut Vec<PrimDeclare>,
) -> Result<(), ParseErr>
    ensures reads { (b : source) (n : word)
        → ReadsTokens (spec.first_input (within b n ports.old.items declarations.old.items [])) tokens.old result
        (λ _. spec.primitive_head_end (within b n ports.new.items declarations.new.items [])) tokens.new }
    ensures shortens { Shortens tokens.old result tokens.new }
{
    tokens.expect(Fixed::Input)?;
    'inputs: loop {
        let name = tokens.name()?;
        ports.push(name.word(alloc)?)?;
        declare(alloc, PrimKind::Input, name, declarations)?;
        if !tokens.more(Fixed::Close)? {
            return Ok(());
        }
        may_input(tokens);
    }
}

// [ "input" ]
#[tactic(auto, using(crate::proofs::Runs::undirected_input))]
fn may_input(tokens: &mut Reader<'_>)
    ensures reads { (p : Within) → goes (spec.input_pin p) tokens.old ≡ goes (spec.input_name p) tokens.new }
    ensures shortens { length tokens.new.tokens ≤ length tokens.old.tokens }
{
    let _ = tokens.take(Fixed::Input);
}

// output = [ "reg" ] name
fn output<'a>(
    alloc: Global,
    tokens: &mut Reader<'a>,
    declarations: &mut Vec<PrimDeclare>,
) -> Result<Name<'a>, ParseErr>
    ensures pin { declarations.old.items ≡ [] → (b : source) (n : word)
        → ReadsTokens (spec.output_pin b n) tokens.old result
        (λ w. spec.after_output (within b n (word_of_name w ∷ []) declarations.new.items [])
        (word_of_name w)) tokens.new }
    ensures declared { ReadsPins spec.output_declared declarations.old
        tokens.old result spec.declared_semi declarations.new tokens.new }
    ensures shortens { Shortens tokens.old result tokens.new }
{
    if tokens.take(Fixed::Reg) {
        let name = tokens.name()?;
        declare(alloc, PrimKind::Output, name, declarations)?;
        declare(alloc, PrimKind::Reg, name, declarations)?;
        return Ok(name);
    }
    let name = tokens.name()?;
    declare(alloc, PrimKind::Output, name, declarations)?;
    Ok(name)
}

// [ "=" bit ] ","
fn start_value(
    alloc: Global,
    name: Name<'_>,
    tokens: &mut Reader<'_>,
    declarations: &mut Vec<PrimDeclare>,
) -> Result<(), ParseErr>
    ensures reads { let w = word_of_name name.entry in
        ReadsPins (λ p. spec.after_output p w) declarations.old
        tokens.old result spec.first_input declarations.new tokens.new }
    ensures shortens { Shortens tokens.old result tokens.new }
{
    if !tokens.take(Fixed::Equals) {
        return tokens.expect(Fixed::Comma);
    }
    let value = tokens.bit()?;
    declare(alloc, PrimKind::Initial(value), name, declarations)?;
    tokens.expect(Fixed::Comma)
}

fn declare(
    alloc: Global,
    what: PrimKind,
    name: Name<'_>,
    declarations: &mut Vec<PrimDeclare>,
) -> Result<(), AllocError>
    ensures { let d = prim_declare what (word_of_name name.entry) in
        OnOk result (declarations.new.items ≡ declarations.old.items ++ d ∷ []) }
{
    let name = name.word(alloc)?;
    declarations.push(PrimDeclare { what, name })?;
    Ok(())
}

// declaration = "output" output ";" | "reg" name ";" | "input" name { "," name } ";" | "initial" name "=" bit ";"
#[tactic(auto, using(crate::proofs::Runs::reads_on))]
fn declaration(
    alloc: Global,
    tokens: &mut Reader<'_>,
    declarations: &mut Vec<PrimDeclare>,
) -> Result<(), ParseErr>
    requires { is_fixed fixed.Table (head tokens.old).what ≡ false }
    ensures reads { ReadsPins spec.in_primitive declarations.old
        tokens.old result spec.in_primitive declarations.new tokens.new }
    ensures shortens { Shortens tokens.old result tokens.new }
{
    if tokens.take(Fixed::Output) {
        output(alloc, tokens, declarations)?;
        tokens.expect(Fixed::Semi)
    } else if tokens.take(Fixed::Reg) {
        declare(alloc, PrimKind::Reg, tokens.name()?, declarations)?;
        tokens.expect(Fixed::Semi)
    } else if tokens.take(Fixed::Input) {
        inputs(alloc, tokens, declarations)
    } else if tokens.take(Fixed::Initial) {
        initial(alloc, tokens, declarations)?;
        tokens.expect(Fixed::Semi)
    } else {
        Err(tokens.peek().fault())
    }
}

// name { "," name } ";"
fn inputs(
    alloc: Global,
    tokens: &mut Reader<'_>,
    declarations: &mut Vec<PrimDeclare>,
) -> Result<(), ParseErr>
    ensures reads { ReadsPins spec.input_declared declarations.old
        tokens.old result spec.in_primitive declarations.new tokens.new }
    ensures shortens { Shortens tokens.old result tokens.new }
{
    'inputs: loop {
        declare(alloc, PrimKind::Input, tokens.name()?, declarations)?;
        if !tokens.more(Fixed::Semi)? {
            return Ok(());
        }
    }
}

// name "=" bit
fn initial(
    alloc: Global,
    tokens: &mut Reader<'_>,
    declarations: &mut Vec<PrimDeclare>,
) -> Result<(), ParseErr>
    ensures reads { ReadsPins spec.initial_declared declarations.old
        tokens.old result spec.declared_semi declarations.new tokens.new }
    ensures shortens { Shortens tokens.old result tokens.new }
{
    let name = tokens.name()?;
    tokens.expect(Fixed::Equals)?;
    let value = tokens.bit()?;
    declare(alloc, PrimKind::Initial(value), name, declarations)?;
    Ok(())
}
