//! Whether the ports of a primitive match its declarations.

ghost use Rattle.std.specs.Prelude.{◌≡◌, OnOk, IfOk, map};
ghost use Rattle.elab_prims.specs.Ports as spec;
ghost use Rattle.elab_prims.specs.Names.{texts};

use crate::names::{are_among, are_distinct, is_alone, is_at_most, names_of};
use netlist_grammar::{PrimDeclare, PrimKind, Primitive};
use std::alloc::{AllocError, Global};
use std::marker::Model;

/// The names by what they are declared as, each as often as it is.
#[derive(Drop)]
struct Declared<'t> {
    outputs: Vec<&'t [u8]>,
    inputs: Vec<&'t [u8]>,
    regs: Vec<&'t [u8]>,
    starts: Vec<&'t [u8]>,
}

impl<'t> Model for Declared<'t> {
    ghost use Rattle.elab_prims.specs.Names.{texts};
    ghost use Rattle.elab_prims.specs.Ports.{Declared, by_kind};

    ghost Value = { Declared };

    ghost view = { λ d.
        by_kind (texts d.outputs.items) (texts d.inputs.items) (texts d.regs.items) (texts d.starts.items) };
}

/// Whether the ports match. Takes a few words and a place in a set for each port and each declaration.
pub(crate) fn matches_ports(alloc: Global, primitive: &Primitive) -> Result<bool, AllocError>
    ensures { IfOk result (λ matches. matches ≡ spec.matches_ports primitive.now) }
{
    let ports = names_of(alloc, primitive.ports.as_slice())?;
    let declared = sort_out(alloc, primitive.declarations.as_slice())?;
    ports_match(alloc, ports.as_slice(), &declared)
}

fn ports_match(alloc: Global, ports: &[&[u8]], declared: &Declared<'_>) -> Result<bool, AllocError>
    ensures { IfOk result (λ matches. matches ≡ spec.ports_match (texts ports.now) declared.now) }
{
    let [first, others @ ..] = ports else {
        return Ok(false);
    };
    let distinct = are_distinct(alloc, ports)?;
    let matching = others_match(alloc, others, declared)?;
    Ok(!others.is_empty() && distinct && first_matches(*first, declared) && matching)
}

fn first_matches(first: &[u8], declared: &Declared<'_>) -> bool
    ensures { result ≡ spec.first_matches first.now declared.now }
{
    is_alone(first, declared.outputs.as_slice())
        && is_at_most(first, declared.regs.as_slice())
        && is_at_most(first, declared.starts.as_slice())
        && has_reg_for_start(declared)
}

/// Whether a start comes only with `reg`.
fn has_reg_for_start(declared: &Declared<'_>) -> bool
    ensures { result ≡ spec.has_reg_for_start declared.now }
{
    declared.starts.is_empty() || !declared.regs.is_empty()
}

fn others_match(
    alloc: Global,
    others: &[&[u8]],
    declared: &Declared<'_>,
) -> Result<bool, AllocError>
    ensures { IfOk result (λ matches. matches ≡ spec.others_match (texts others.now) declared.now) }
{
    let inputs = declared.inputs.as_slice();
    let distinct = are_distinct(alloc, inputs)?;
    let known = are_among(alloc, others, inputs)?;
    let all = are_among(alloc, inputs, others)?;
    Ok(distinct && known && all)
}

/// The declarations by what they are.
fn sort_out<'t>(alloc: Global, declarations: &'t [PrimDeclare]) -> Result<Declared<'t>, AllocError>
    ensures { IfOk result (λ declared. declared ≡ spec.declared declarations.now) }
{
    let mut declared = Declared::new(alloc);
    'declarations: for declaration in declarations {
        declared.add(declaration.what, declaration.name.text.as_slice())?;
    }
    Ok(declared)
}

impl<'t> Declared<'t> {
    ghost use Rattle.std.specs.Prelude.{◌≡◌, OnOk, []};
    ghost use Rattle.elab_prims.specs.Ports.{declared, with_declared};

    fn new(alloc: Global) -> Declared<'t>
        ensures { result ≡ declared [] }
    {
        Declared {
            outputs: Vec::new(alloc),
            inputs: Vec::new(alloc),
            regs: Vec::new(alloc),
            starts: Vec::new(alloc),
        }
    }

    fn add(&mut self, what: PrimKind, name: &'t [u8]) -> Result<(), AllocError>
        ensures { OnOk result (self.new ≡ with_declared what name.now self.old) }
    {
        match what {
            PrimKind::Output => self.outputs.push(name)?,
            PrimKind::Input => self.inputs.push(name)?,
            PrimKind::Reg => self.regs.push(name)?,
            PrimKind::Initial(_) => self.starts.push(name)?,
        }
        Ok(())
    }
}
