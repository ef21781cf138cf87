//! The connections of an instance of a module.

ghost use Rattle.std.specs.Prelude.{◌≡◌, ◌≤◌, ◌+◌, ◌^◌, []};
ghost use Rattle.std.specs.Option.{ForSome};
ghost use Rattle.elab_nets.specs.Outcome.{Gives};
ghost use Rattle.elab_nets.specs.Ranges.{width_of as spec_width_of};
ghost use Rattle.elab_nets.specs.State.{net_count};
ghost use Rattle.elab_joins.specs.Connect as spec;

use elab_bits::{Role, Runs, bits_of, drive, feed};
use elab_names::{Entry, Here, NameSet, PortNames, Scope};
use elab_nets::{ElabErr, width_of};
use netlist_grammar::{Connection, Connections, Expr, NamedConnection, NetKind, Word};

/// Connects the ports of an open module, from left to right.
pub(crate) fn connect_all<'t>(
    here: &mut Here<'t>,
    inner: &Scope<'_>,
    ports: &PortNames<'_>,
    connections: &'t Connections,
) -> Result<(), ElabErr>
    ensures { Gives (spec.all_connected inner.now ports.now connections.now here.old) result (λ _. here.new) }
{
    match connections {
        Connections::Positional(list) => {
            connect_positional(here, inner, ports.ports(), list.as_slice())
        }
        Connections::Named(list) => { connect_named(here, inner, ports, list.as_slice()) }
    }
}

fn connect_positional<'t>(
    here: &mut Here<'t>,
    inner: &Scope<'_>,
    ports: &[Word],
    list: &'t [Connection],
) -> Result<(), ElabErr>
    ensures { Gives (spec.all_positional inner.now ports.now list.now here.old) result (λ _. here.new) }
{
    let mut left = ports;
    'list: for connection in list {
        let [port, rest @ ..] = left else {
            return Err(ElabErr::PortMismatch { at: connection.at });
        };
        let entry = inner.find(port.text.as_slice());
        connect(here, entry, &connection.value)?;
        left = rest;
    }
    Ok(())
}

fn connect_named<'t>(
    here: &mut Here<'t>,
    inner: &Scope<'_>,
    ports: &PortNames<'_>,
    list: &'t [NamedConnection],
) -> Result<(), ElabErr>
    ensures { Gives (spec.all_named inner.now ports.now [] list.now here.old) result (λ _. here.new) }
{
    let mut seen = NameSet::new(here.alloc);
    'list: for connection in list {
        let name = connection.port.text.as_slice();
        if seen.has(name) || !ports.has(name) {
            return Err(ElabErr::PortMismatch {
                at: connection.port.at,
            });
        }
        let _ = seen.add(name)?;
        connect(here, inner.find(name), &connection.value)?;
    }
    Ok(())
}

/// Connects a port. An empty connection connects nothing.
fn connect<'t>(
    here: &mut Here<'t>,
    port: Option<Entry>,
    value: &'t Option<Expr>,
) -> Result<(), ElabErr>
    requires { ForSome port (λ p. p.base + net_count p.what p.range ≤ 2 ^ 20) }
    ensures { Gives (spec.connected port value.now here.old) result (λ _. here.new) }
{
    match (port, value) {
        (Some(port), Some(expr)) => connect_as(here, port, expr),
        (Some(_), None) | (None, Some(_)) | (None, None) => Ok(()),
    }
}

fn connect_as<'t>(here: &mut Here<'t>, port: Entry, expr: &'t Expr) -> Result<(), ElabErr>
    requires { port.base + net_count port.what port.range ≤ 2 ^ 20 }
    ensures { Gives (spec.connected_as port.what port expr.now here.old) result (λ _. here.new) }
{
    match port.what {
        NetKind::Input => feed_input(here, port, expr),
        NetKind::Output => drive_output(here, port, expr),
        NetKind::Wire | NetKind::Supply0 | NetKind::Supply1 | NetKind::Reg => Ok(()),
    }
}

/// The nets of an input port take the bits outside.
fn feed_input<'t>(here: &mut Here<'t>, port: Entry, expr: &'t Expr) -> Result<(), ElabErr>
    requires { port.base + spec_width_of port.range ≤ 2 ^ 20 }
    ensures { Gives (spec.fed_input port expr.now here.old) result (λ _. here.new) }
{
    let bits = bits_of(here, Role::Taken, expr)?;
    if !bits.has_width(width_of(port.range)) {
        return Err(ElabErr::Width { at: expr.at });
    }
    feed(&mut here.nets, port.base, &bits);
    Ok(())
}

/// The nets outside take the bits of an output port.
fn drive_output<'t>(here: &mut Here<'t>, port: Entry, expr: &'t Expr) -> Result<(), ElabErr>
    requires { port.base + spec_width_of port.range ≤ 2 ^ 20 }
    ensures { Gives (spec.driven_output port expr.now here.old) result (λ _. here.new) }
{
    let bits = bits_of(here, Role::Driven, expr)?;
    let width = width_of(port.range);
    if !bits.has_width(width) {
        return Err(ElabErr::Width { at: expr.at });
    }
    let inside = Runs::of_nets(here.alloc, expr.at, port.base, width as u32)?;
    drive(&mut here.nets, &bits, &inside)?;
    Ok(())
}
