//! A module that an instance opens.

ghost use Rattle.std.specs.Prelude.{◌≡◌, ◌++◌, ◌∷◌, [], IfOk};
ghost use Rattle.elab_nets.specs.Outcome.{Gives};
ghost use Rattle.elab_nets.specs.State.{part_of};
ghost use Rattle.elab_names.specs.Here.{here_of};
ghost use Rattle.elab_names.specs.Names.{opened};
ghost use Rattle.elab_joins.specs.Connect.{all_connected};
ghost use Rattle.elab_joins.specs.Joined as spec;

use crate::connect::connect_all;
use base_lists::Items;
use design_circuit::{Bytes, NamePart};
use elab_names::{Declarations, Here, PortNames, Scope};
use elab_nets::{ElabErr, Nets, part_of};
use netlist_grammar::{Connections, InstanceItem, Word};
use std::alloc::{AllocError, Global};
use std::mem;

/// Opens the module of an instance, the child, and connects its ports. Goes into the child, and answers the names
/// outside. Takes memory for its nets, for its path, and for the parts of the connections.
pub fn join<'t>(
    here: &mut Here<'t>,
    child: &'t Declarations<'t>,
    instance: &'t InstanceItem,
) -> Result<Scope<'t>, ElabErr>
    ensures { Gives (spec.joined instance.now child.now here.old) result (λ outer. (outer, here.new)) }
{
    let Some(name) = &instance.name else {
        return Err(ElabErr::PortMismatch {
            at: instance.definition.at,
        });
    };
    here.scope.add_instance(name)?;
    let inner = open_behind(here.alloc, here.scope.prefix(), &mut here.nets, child, name)?;
    let inner = connect_open(here, inner, child.ports(), &instance.connections)?;
    Ok(mem::replace(&mut here.scope, inner))
}

/// Connects the ports of the open child.
fn connect_open<'t>(
    here: &mut Here<'t>,
    inner: Scope<'t>,
    ports: &PortNames<'_>,
    connections: &'t Connections,
) -> Result<Scope<'t>, ElabErr>
    ensures connected { Gives (all_connected inner.entry ports.now connections.now here.old) result (λ _. here.new) }
    ensures same { IfOk result (λ scope. scope ≡ inner.entry) }
{
    connect_all(here, &inner, ports, connections)?;
    Ok(inner)
}

/// Opens the child behind these instances and its own.
fn open_behind<'t>(
    alloc: Global,
    prefix: &[NamePart],
    nets: &mut Nets,
    child: &'t Declarations<'t>,
    name: &Word,
) -> Result<Scope<'t>, ElabErr>
    ensures { let here = here_of (spec.inner_scope prefix.now name.now) nets.old in
        Gives (opened child.now.ports child.now.items here) result (λ inner. here_of inner nets.new) }
{
    let prefix = inner_prefix(alloc, prefix, name)?;
    let inner = child.open(alloc, prefix, nets)?;
    Ok(inner)
}

/// The instances that lead to a module, one more.
fn inner_prefix(
    alloc: Global,
    prefix: &[NamePart],
    name: &Word,
) -> Result<Items<NamePart>, AllocError>
    ensures { IfOk result (λ inner. inner ≡ prefix.now ++ part_of name.now ∷ []) }
{
    let mut parts = Vec::new(alloc);
    'parts: for part in prefix {
        parts.push(copy_of(alloc, part)?)?;
    }
    parts.push(part_of(alloc, name)?)?;
    Ok(Items::from_vec(parts))
}

fn copy_of(alloc: Global, part: &NamePart) -> Result<NamePart, AllocError>
    ensures { IfOk result (λ copy. copy ≡ part.now) }
{
    let text = Bytes::from_vec(part.text.as_slice().to_vec(alloc)?);
    Ok(NamePart {
        text,
        escaped: part.escaped,
    })
}
