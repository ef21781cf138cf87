//! The bits of an expression (IEEE 1364-2005, clauses 3.5, 4.2 and 5.1).

ghost use Rattle.std.specs.Prelude.{◌≡◌, ◌≤◌, ◌+◌, ◌^◌, None, Some, IfOk, IfSome};
ghost use Rattle.netlist_grammar.specs.declared.tree.NetKind.TheVariants.{Wire};
ghost use Rattle.elab_nets.specs.Outcome.{Gives};
ghost use Rattle.elab_nets.specs.State.{net_count};
ghost use Rattle.elab_nets.specs.Ranges.{width_of as spec_width_of};
ghost use Rattle.elab_names.specs.Scope.{entry_of};
ghost use Rattle.elab_bits.specs.Bits as spec;

use crate::runs::Runs;
use elab_names::{Entry, Here, Scope, introduce};
use elab_nets::{ElabErr, NetDeclaration, offset, width_of, within};
use netlist_grammar::{Expr, NetKind, Part, PartKind, Word};

/// For what an expression stands: what drives it, or what reads it.
#[derive(Clone, Copy)]
pub enum Role {
    /// It is driven: the left side of an assignment, or what an output port drives.
    Driven,
    /// It is copied: the right side of an assignment, or what an input port takes.
    Taken,
    /// It stands at a gate or an instance of a primitive.
    Terminal,
}

/// The bits of an expression from left to right. Takes memory for each of its parts, and for the implicit wires.
pub fn bits_of<'t>(here: &mut Here<'t>, role: Role, expr: &'t Expr) -> Result<Runs, ElabErr>
    ensures { Gives (spec.bits_of role expr.now here.old) result (λ runs. (runs, here.new)) }
{
    let mut runs = Runs::new(here.alloc);
    push_parts(here, &mut runs, role, expr.parts.as_slice())?;
    Ok(runs)
}

/// The bits of a name by itself, from left to right.
pub fn name_bits<'t>(here: &mut Here<'t>, role: Role, word: &'t Word) -> Result<Runs, ElabErr>
    ensures { Gives (spec.bits_of role (spec.whole_name word.now) here.old) result (λ runs. (runs, here.new)) }
{
    let mut runs = Runs::new(here.alloc);
    push_whole(here, &mut runs, role, word.at, word)?;
    Ok(runs)
}

/// Puts the bits of the parts behind the others.
fn push_parts<'t>(
    here: &mut Here<'t>,
    runs: &mut Runs,
    role: Role,
    parts: &'t [Part],
) -> Result<(), ElabErr>
    ensures { Gives (spec.lanes_of role runs.old parts.now here.old) result (λ _. (runs.new, here.new)) }
{
    'parts: for part in parts {
        push_part(here, runs, role, part)?;
    }
    Ok(())
}

/// Puts the bits of a part behind the others.
fn push_part<'t>(
    here: &mut Here<'t>,
    runs: &mut Runs,
    role: Role,
    part: &'t Part,
) -> Result<(), ElabErr>
    ensures { Gives (spec.part_lanes role runs.old part.now here.old) result (λ _. (runs.new, here.new)) }
{
    let at = part.at;
    match &part.what {
        PartKind::Whole(word) => push_whole(here, runs, role, at, word),
        PartKind::Bit(word, i) => push_select(&here.scope, runs, at, word, (*i, *i)),
        PartKind::Slice(word, i, j) => push_select(&here.scope, runs, at, word, (*i, *j)),
        PartKind::Literal(size, value) => push_literal(runs, role, at, *size, *value),
    }
}

/// Puts the bits of a plain name behind the others.
fn push_whole<'t>(
    here: &mut Here<'t>,
    runs: &mut Runs,
    role: Role,
    at: usize,
    word: &'t Word,
) -> Result<(), ElabErr>
    ensures { Gives (spec.whole_lanes role runs.old at word.now here.old) result (λ _. (runs.new, here.new)) }
{
    let entry = find_or_wire(here, word)?;
    push_name(runs, role, at, word, entry)?;
    Ok(())
}

/// What a plain name stands for. One that isn't declared is an implicit wire.
fn find_or_wire<'t>(here: &mut Here<'t>, word: &'t Word) -> Result<Entry, ElabErr>
    ensures known { let known = entry_of here.old.scope word.now.text in
        Gives (spec.known_or_wire known word.now here.old) result (λ e. (e, here.new)) }
    ensures few { IfOk result (λ e. e.base + net_count e.what e.range ≤ 2 ^ 20) }
{
    match here.scope.find(word.text.as_slice()) {
        Some(entry) => Ok(entry),
        None => introduce(here, &implicit_wire(word)),
    }
}

fn implicit_wire(word: &Word) -> NetDeclaration<'_>
    ensures what { result.what ≡ Wire }
    ensures range { result.range ≡ None }
    ensures name { result.name.now ≡ word.now }
{
    NetDeclaration {
        what: NetKind::Wire,
        range: None,
        name: word,
    }
}

/// Puts the nets of a name behind the bits.
fn push_name(
    runs: &mut Runs,
    role: Role,
    at: usize,
    word: &Word,
    entry: Entry,
) -> Result<(), ElabErr>
    requires { entry.base + net_count entry.what entry.range ≤ 2 ^ 20 }
    ensures { Gives (spec.name_lanes role runs.old at word.now entry.what entry) result (λ _. runs.new) }
{
    match entry.what {
        NetKind::Reg => push_reg(runs, role, at, word),
        _ => {
            runs.push_nets(at, entry.base, width_of(entry.range) as u32)?;
            Ok(())
        }
    }
}

/// A `reg` has no net. A terminal may read it, and is dead.
fn push_reg(runs: &mut Runs, role: Role, at: usize, word: &Word) -> Result<(), ElabErr>
    ensures { Gives (spec.reg_lanes role runs.old at word.now) result (λ _. runs.new) }
{
    match role {
        Role::Terminal => {
            runs.push_dead(at)?;
            Ok(())
        }
        Role::Driven | Role::Taken => Err(ElabErr::BadName { at: word.at }),
    }
}

/// Puts the bits of a select behind the others.
fn push_select(
    scope: &Scope<'_>,
    runs: &mut Runs,
    at: usize,
    word: &Word,
    bounds: (u32, u32),
) -> Result<(), ElabErr>
    ensures { Gives (spec.select_lanes runs.old at word.now bounds.0 bounds.1 scope.now) result (λ _. runs.new) }
{
    let Some(entry) = scope.find(word.text.as_slice()) else {
        return Err(ElabErr::BadName { at: word.at });
    };
    let Some((first, count)) = between(entry, bounds.0, bounds.1) else {
        return Err(ElabErr::BadName { at: word.at });
    };
    runs.push_nets(at, first, count)?;
    Ok(())
}

/// The nets from one index to another: the first and how many.
fn between(entry: Entry, i: u32, j: u32) -> Option<(u32, u32)>
    requires { entry.base + net_count entry.what entry.range ≤ 2 ^ 20 }
    ensures nets { result ≡ spec.between entry.base (spec.net_range entry.what entry.range) i j }
    ensures few { IfSome result (λ r. r.0 + r.1 ≤ 2 ^ 20) }
{
    let range = net_range(entry)?;
    if !within(range, i) || !within(range, j) {
        return None;
    }
    let first = offset(range, i);
    let last = offset(range, j);
    if first > last {
        return None;
    }
    Some((entry.base + first, last - first + 1))
}

/// The range of the nets of a name.
fn net_range(entry: Entry) -> Option<(u32, u32)>
    requires { entry.base + net_count entry.what entry.range ≤ 2 ^ 20 }
    ensures range { result ≡ spec.net_range entry.what entry.range }
    ensures few { IfSome result (λ r. entry.base + spec_width_of (Some r) ≤ 2 ^ 20) }
{
    match entry.what {
        NetKind::Reg => None,
        _ => entry.range,
    }
}

/// Puts the bits of a literal behind the others. A literal can't be driven.
fn push_literal(
    runs: &mut Runs,
    role: Role,
    at: usize,
    size: u32,
    value: u128,
) -> Result<(), ElabErr>
    ensures { Gives (spec.literal_bits role runs.old at size value) result (λ _. runs.new) }
{
    match role {
        Role::Driven => Err(ElabErr::BadName { at }),
        Role::Taken | Role::Terminal => {
            runs.push_literal(at, size, value)?;
            Ok(())
        }
    }
}
