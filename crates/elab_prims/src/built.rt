//! The tables of a text's primitives.

ghost use Rattle.std.specs.Prelude.{◌≡◌, ◌≢◌, true, Ok, Err, IfOk, IfErr};
ghost use Rattle.design_cell.specs.Refusal.{IsLegal, IsRefusal};
ghost use Rattle.elab_nets.specs.declared.fault.ElabErr.TheVariants.{Memory as OutOfMemory};
ghost use Rattle.netlist_grammar.specs.Trees.{is_sequential as spec_is_sequential};
ghost use Rattle.elab_prims.specs.Ports.{matches_ports as spec_matches_ports};
ghost use Rattle.elab_prims.specs.Built as spec;

use crate::ports::matches_ports;
use design_cell::{Udp, UdpErr, Value};
use elab_nets::ElabErr;
use netlist_grammar::{PrimDeclare, PrimKind, Primitive};
use std::alloc::Global;

/// The tables of the primitives, in their order, or the first refusal. Takes what `Udp::build` takes for each, and a
/// few words for each port while it is looked at.
pub fn build_primitives(alloc: Global, primitives: &[Primitive]) -> Result<Vec<Udp>, ElabErr>
    ensures built { IfOk result (λ udps. spec.AreBuilt primitives.now (Ok udps.items)) }
    ensures tables { IfOk result (λ udps. spec.AreTables primitives.now udps.items) }
    ensures refused { IfErr result (λ e. e ≢ OutOfMemory → spec.AreBuilt primitives.now (Err e)) }
    ensures exact { spec.IsAnswer primitives.now result (λ udps. udps.items) }
{
    let mut udps = Vec::new(alloc);
    'primitives: for primitive in primitives {
        udps.push(build_primitive(alloc, primitive)?)?;
    }
    Ok(udps)
}

fn build_primitive(alloc: Global, primitive: &Primitive) -> Result<Udp, ElabErr>
    ensures built { IfOk result (λ udp. spec.IsBuilt primitive.now (Ok udp)) }
    ensures refused { IfErr result (λ e. e ≢ OutOfMemory → spec.IsBuilt primitive.now (Err e)) }
{
    if !matches_ports(alloc, primitive)? {
        return Err(ElabErr::PortMismatch {
            at: primitive.name.at,
        });
    }
    build_table(alloc, primitive)
}

#[tactic(auto, using(crate::proofs::PortLemmas::has_input))]
fn build_table(alloc: Global, primitive: &Primitive) -> Result<Udp, ElabErr>
    requires { spec_matches_ports primitive.now ≡ true }
    ensures built { IfOk result (λ udp. spec.IsBuilt primitive.now (Ok udp)) }
    ensures refused { IfErr result (λ e. e ≢ OutOfMemory → spec.IsBuilt primitive.now (Err e)) }
{
    let declarations = primitive.declarations.as_slice();
    let sequential = is_sequential(declarations);
    let inputs = primitive.ports.as_slice().len() - 1;
    let rows = primitive.rows.as_slice();
    match Udp::build(alloc, sequential, inputs, rows, start_in(declarations)) {
        Ok(udp) => Ok(udp),
        Err(fault) => Err(refusal_of(primitive.name.at, fault)),
    }
}

/// The refusal of a table as that of a text.
fn refusal_of(at: usize, fault: UdpErr) -> ElabErr
    ensures { result ≡ spec.refusal_of at fault }
{
    match fault {
        UdpErr::Memory => ElabErr::Memory,
        _ => ElabErr::Udp { at, fault },
    }
}

fn is_sequential(declarations: &[PrimDeclare]) -> bool
    ensures { result ≡ spec_is_sequential declarations.now }
{
    declarations
        .iter()
        .any(|declaration| matches!(declaration.what, PrimKind::Reg))
}

/// The state that a register starts with.
fn start_in(declarations: &[PrimDeclare]) -> Value
    ensures { result ≡ spec.start_in declarations.now }
{
    'declarations: for declaration in declarations {
        if let PrimKind::Initial(value) = declaration.what {
            return value.read();
        }
    }
    Value::X
}
