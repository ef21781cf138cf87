//! What the declarations of a module come to in each of its instances.

ghost use Rattle.std.specs.Prelude.{◌≡◌, ◌≤◌, ◌+◌, ◌^◌, OnOk, IfOk, length};
ghost use Rattle.elab_nets.specs.Outcome.{Gives};
ghost use Rattle.elab_nets.specs.State.{net_count as spec_net_count};
ghost use Rattle.elab_names.specs.Outline as spec;
ghost use Rattle.elab_names.specs.Outline.{declares_in, with_maker, Tells};

use crate::declare::{is_directed, net_of, repeats};
use crate::name_map::NameMap;
use crate::ports::PortNames;
use crate::scope::{Entry, Scope};
use base_lists::Items;
use design_circuit::NamePart;
use elab_nets::{ElabErr, MOST_NETS, Nets, width_of};
use netlist_grammar::{Declare, Item, NetKind};
use std::alloc::{AllocError, Global};
use std::marker::Model;

/// Names with their nets from 0 on, the declarations that make nets, and how many nets these are.
#[derive(Drop)]
pub(crate) struct Outline<'t> {
    names: NameMap<'t>,
    makers: Vec<&'t Declare>,
    count: usize,
}

impl<'t> Model for Outline<'t> {
    ghost use Rattle.std.specs.Prelude.{◌≤◌, ◌^◌};
    ghost use Rattle.elab_names.specs.Outline.{Outline, outline_of, declares_in};

    ghost Value = { Outline };

    ghost view = { λ o. outline_of o.names (declares_in o.makers.items) o.count };

    ghost invariant = { λ o. o.count ≤ 2 ^ 20 };
}

impl<'t> Outline<'t> {
    ghost use Rattle.std.specs.Prelude.{◌≡◌, ◌≤◌, ◌+◌, ◌^◌, None, Ok, IfOk, length, bytes_eq};
    ghost use Rattle.std.specs.Map.{lookup};
    ghost use Rattle.elab_nets.specs.Outcome.{Gives};
    ghost use Rattle.elab_names.specs.Here.{here_of};
    ghost use Rattle.elab_names.specs.Outline as spec;

    /// No names.
    pub(crate) fn new(alloc: Global) -> Outline<'t>
        ensures { result ≡ spec.no_outline }
    {
        Outline {
            names: NameMap::new(alloc),
            makers: Vec::new(alloc),
            count: 0,
        }
    }

    /// The names.
    pub(crate) fn names(&self) -> &NameMap<'t>
        ensures { result.now ≡ self.now.names }
    {
        &self.names
    }

    /// How many nets the declarations make.
    pub(crate) fn count(&self) -> usize
        ensures count { result ≡ self.now.count }
        ensures few { result ≤ 2 ^ 20 }
    {
        self.count
    }

    /// A declaration more. Answers whether it is in order.
    pub(crate) fn note(
        &mut self,
        ports: &PortNames<'_>,
        declare: &'t Declare,
    ) -> Result<bool, AllocError>
        ensures { IfOk result (λ yes. spec.Tells (spec.noted ports.now declare.now self.old) self.new yes) }
    {
        let name = declare.name.text.as_slice();
        if is_directed(declare.what) && !ports.has(name) {
            return Ok(false);
        }
        match self.names.find(name) {
            Some(entry) => Ok(repeats(entry, declare)),
            None => self.note_new(declare),
        }
    }

    /// The declaration of a new name.
    fn note_new(&mut self, declare: &'t Declare) -> Result<bool, AllocError>
        requires { lookup (bytes_eq declare.now.name.text) self.old.names ≡ None }
        ensures { IfOk result (λ yes. spec.Tells (spec.noted_again None declare.now self.old) self.new yes) }
    {
        let nets = net_count(declare.what, declare.range);
        if nets > MOST_NETS - self.count {
            return Ok(false);
        }
        let entry = Entry {
            what: declare.what,
            range: declare.range,
            base: self.count as u32,
        };
        push_maker(&mut self.makers, declare)?;
        self.names.add(declare.name.text.as_slice(), entry)?;
        self.count += nets;
        Ok(true)
    }

    /// Makes the nets of a module behind these instances, and answers its names.
    #[tactic(auto, using(crate::proofs::Outlining::few_from))]
    pub(crate) fn open(
        &'t self,
        alloc: Global,
        prefix: Items<NamePart>,
        nets: &mut Nets,
    ) -> Result<Scope<'t>, ElabErr>
        requires few { length nets.old.names + self.now.count ≤ 2 ^ 20 }
        requires counts { spec.Counts self.now.names self.now.count }
        ensures { Gives (spec.made_from prefix self.now nets.old) result (λ scope. here_of scope nets.new) }
    {
        let base = nets.count();
        make_all(alloc, nets, prefix.as_slice(), self.makers.as_slice())?;
        Ok(Scope::over(alloc, prefix, &self.names, base as u32))
    }
}

fn net_count(what: NetKind, range: Option<(u32, u32)>) -> usize
    ensures { result ≡ spec_net_count what range }
{
    match what {
        NetKind::Reg => 0,
        _ => width_of(range),
    }
}

fn is_reg(what: NetKind) -> bool
    ensures { result ≡ spec.is_reg what }
{
    matches!(what, NetKind::Reg)
}

/// A `reg` makes no net.
#[tactic(auto, using(crate::proofs::Outlining::declares_push))]
fn push_maker<'t>(makers: &mut Vec<&'t Declare>, declare: &'t Declare) -> Result<(), AllocError>
    ensures { OnOk result (declares_in makers.new.items ≡ with_maker declare.now (declares_in makers.old.items)) }
{
    if is_reg(declare.what) {
        return Ok(());
    }
    makers.push(declare)?;
    Ok(())
}

fn make_all(
    alloc: Global,
    nets: &mut Nets,
    prefix: &[NamePart],
    makers: &[&Declare],
) -> Result<(), ElabErr>
    ensures { Gives (spec.all_made prefix.now (declares_in makers.now) nets.old) result (λ _. nets.new) }
{
    'makers: for declare in makers {
        nets.make(alloc, prefix, &net_of(declare))?;
    }
    Ok(())
}

/// Notes the declarations of a module in text order. Answers whether they are in order.
pub(crate) fn note_all<'t>(
    outline: &mut Outline<'t>,
    ports: &PortNames<'_>,
    items: &'t [Item],
) -> Result<bool, AllocError>
    ensures { IfOk result (λ yes. Tells (spec.all_noted ports.now items.now outline.old) outline.new yes) }
{
    'items: for item in items {
        if let Item::Declare(declare) = item {
            if !outline.note(ports, declare)? {
                return Ok(false);
            }
        }
    }
    Ok(true)
}
