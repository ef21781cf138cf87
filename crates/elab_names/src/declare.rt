//! The declarations and the ports of a module (IEEE 1364-2005, clauses 4 and 12.3).

ghost use Rattle.std.specs.Prelude.{◌≡◌, ◌≤◌, ◌+◌, ◌^◌, ◌==◌, [], None, IfOk};
ghost use Rattle.elab_nets.specs.Outcome.{Gives};
ghost use Rattle.elab_nets.specs.State.{net_count};
ghost use Rattle.elab_names.specs.Scope.{entry_of};
ghost use Rattle.elab_names.specs.Here.{introduced};
ghost use Rattle.elab_names.specs.Names as spec;

use crate::here::Here;
use crate::name_set::NameSet;
use crate::ports::PortNames;
use crate::scope::{Entry, Scope};
use elab_nets::{ElabErr, NetDeclaration};
use netlist_grammar::{Declare, Item, NetKind, Word};
use std::alloc::Global;

/// A new name of the module, with nets of its own.
pub fn introduce<'t>(here: &mut Here<'t>, net: &NetDeclaration<'t>) -> Result<Entry, ElabErr>
    requires { entry_of here.old.scope net.now.name.now.text ≡ None }
    ensures introduced { let wanted = introduced net.now.what net.now.range net.now.name.now here.old in
        Gives wanted result (λ e. (e, here.new)) }
    ensures few { IfOk result (λ e. e.base + net_count e.what e.range ≤ 2 ^ 20) }
{
    let base = here.nets.make(here.alloc, here.scope.prefix(), net)?;
    let entry = Entry {
        what: net.what,
        range: net.range,
        base,
    };
    here.scope.add(net.name.text.as_slice(), entry)?;
    Ok(entry)
}

/// A module's declarations in text order, and then its ports in theirs.
pub(crate) fn open_module<'t>(
    here: &mut Here<'t>,
    ports: &PortNames<'t>,
    items: &'t [Item],
) -> Result<(), ElabErr>
    ensures { Gives (spec.opened ports.now items.now here.old) result (λ _. here.new) }
{
    declare_all(here, ports, items)?;
    check_ports(here.alloc, &here.scope, ports.ports())?;
    Ok(())
}

fn declare_all<'t>(
    here: &mut Here<'t>,
    ports: &PortNames<'_>,
    items: &'t [Item],
) -> Result<(), ElabErr>
    ensures { Gives (spec.all_declared ports.now items.now here.old) result (λ _. here.new) }
{
    'items: for item in items {
        if let Item::Declare(declare) = item {
            declare_one(here, ports, declare)?;
        }
    }
    Ok(())
}

/// A direction is for a port.
fn declare_one<'t>(
    here: &mut Here<'t>,
    ports: &PortNames<'_>,
    declare: &'t Declare,
) -> Result<(), ElabErr>
    ensures { Gives (spec.declared ports.now declare.now here.old) result (λ _. here.new) }
{
    let name = &declare.name;
    if is_directed(declare.what) && !ports.has(name.text.as_slice()) {
        return Err(ElabErr::PortMismatch { at: name.at });
    }
    declare_name(here, declare)?;
    Ok(())
}

/// A name is declared, or declared again.
fn declare_name<'t>(here: &mut Here<'t>, declare: &'t Declare) -> Result<(), ElabErr>
    ensures { let known = entry_of here.old.scope declare.now.name.text in
        Gives (spec.declared_again known declare.now here.old) result (λ _. here.new) }
{
    match here.scope.find(declare.name.text.as_slice()) {
        Some(entry) => {
            if !repeats(entry, declare) {
                return Err(ElabErr::BadName {
                    at: declare.name.at,
                });
            }
            Ok(())
        }
        None => {
            introduce(here, &net_of(declare))?;
            Ok(())
        }
    }
}

/// The nets that a declaration makes.
pub(crate) fn net_of(declare: &Declare) -> NetDeclaration<'_>
    ensures what { result.what ≡ declare.now.what }
    ensures range { result.range ≡ declare.now.range }
    ensures name { result.name.now ≡ declare.now.name }
{
    NetDeclaration {
        what: declare.what,
        range: declare.range,
        name: &declare.name,
    }
}

/// Whether a second declaration changes nothing.
pub(crate) fn repeats(entry: Entry, declare: &Declare) -> bool
    ensures { result ≡ spec.repeats entry declare.now }
{
    let again = is_same_kind(entry.what, declare.what);
    let as_wire = is_directed(entry.what) && is_same_kind(declare.what, NetKind::Wire);
    (again || as_wire) && is_same_range(entry.range, declare.range)
}

pub(crate) fn is_directed(what: NetKind) -> bool
    ensures { result ≡ spec.is_directed what }
{
    matches!(what, NetKind::Input | NetKind::Output)
}

fn kind_number(what: NetKind) -> u8
    ensures { result ≡ spec.kind_number what }
{
    what as u8
}

fn is_same_kind(what: NetKind, other: NetKind) -> bool
    ensures { result ≡ (spec.kind_number what == spec.kind_number other) }
{
    kind_number(what) == kind_number(other)
}

fn is_same_range(range: Option<(u32, u32)>, other: Option<(u32, u32)>) -> bool
    ensures { result ≡ spec.same_range range other }
{
    match (range, other) {
        (None, None) => true,
        (Some(a), Some(b)) => a.0 == b.0 && a.1 == b.1,
        _ => false,
    }
}

/// Each port is named once and has a direction.
fn check_ports<'t>(alloc: Global, scope: &Scope<'_>, ports: &'t [Word]) -> Result<(), ElabErr>
    ensures { Gives (spec.ports_checked scope.now [] ports.now) result (λ _. scope.now) }
{
    let mut seen = NameSet::new(alloc);
    'ports: for port in ports {
        check_port(scope, &mut seen, port)?;
    }
    Ok(())
}

fn check_port<'t>(scope: &Scope<'_>, seen: &mut NameSet<'t>, port: &'t Word) -> Result<(), ElabErr>
    ensures { Gives (spec.port_checked scope.now seen.old port.now) result (λ _. seen.new) }
{
    if seen.has(port.text.as_slice()) || !has_direction(scope, port) {
        return Err(ElabErr::PortMismatch { at: port.at });
    }
    let _ = seen.add(port.text.as_slice())?;
    Ok(())
}

fn has_direction(scope: &Scope<'_>, port: &Word) -> bool
    ensures { result ≡ spec.has_direction (entry_of scope.now port.now.text) }
{
    match scope.find(port.text.as_slice()) {
        Some(entry) => is_directed(entry.what),
        None => false,
    }
}
