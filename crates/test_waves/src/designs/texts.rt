//! The text of one net at two moments.

ghost use Rattle.std.specs.Prelude.{◌≡◌, ◌∷◌, [], IfOk, length};
ghost use Rattle.design_circuit.specs.declared.design.Design.{Design as a_design};
ghost use Rattle.recording_binding.specs.Binding.{FitsBinding};

use crate::asserted::same_items;
use crate::designs::nets::{one_net, part, two_moments};
use base_lists::Items;
use design_cell::Value;
use design_circuit::{Bytes, Design, HistoryWriter, Place, Stim};
use recording_binding::{Binding, Bound, NetNumbers};
use recording_writer::vcd_text;
use std::alloc::{AllocError, Global};
use std::process::Abort;
use std::test::Fail;

/// The variable of the first net, in the scope `top`.
fn variable(alloc: Global) -> Result<Bound, AllocError>
    ensures { IfOk result (λ b. b.bits ≡ 0 ∷ []) }
{
    let path = vec![in alloc; Bytes::from_vec(b"top".to_vec(alloc)?)]?;
    Ok(Bound {
        variable: 0,
        bits: NetNumbers::from_vec([0].to_vec(alloc)?),
        path: Items::from_vec(path),
        range: None,
    })
}

/// Its binding.
fn binding(alloc: Global) -> Result<Binding, AllocError>
    ensures { IfOk result (λ b. (design : a_design) → length design.nets ≡ 1 → FitsBinding design b) }
{
    let mut bound = Vec::new(alloc);
    bound.push(variable(alloc)?)?;
    Ok(Binding {
        timescale: Some(Bytes::from_vec(b"1ns".to_vec(alloc)?)),
        bound: Items::from_vec(bound),
    })
}

/// The net `a-b`.
fn design(alloc: Global) -> Result<Design, AllocError>
    ensures { IfOk result (λ design. length design.nets ≡ 1) }
{
    let parts = vec![in alloc; part(alloc, b"a-b", true)?]?;
    one_net(alloc, parts, None)
}

/// Compares the text of the net, which the second moment sets to 1.
fn check_text(
    rt: &impl Abort,
    alloc: Global,
    design: &Design,
    binding: &Binding,
    stim: &Stim,
) -> Result<(), Fail>
    requires nets { length design.now.nets ≡ 1 }
    requires binding { FitsBinding design.now binding.now }
    requires times { length stim.now.times ≡ 2 }
    requires rounds { stim.now.rounds ≡ 2 }
{
    let mut writer = HistoryWriter::blank(alloc, design, stim)?;
    writer.next_step()?;
    writer.next_step()?;
    writer.next_step()?;
    writer.set(Place { step: 3, net: 0 }, Value::One, Value::X)?;
    let history = writer.finish(alloc)?;
    let text = vcd_text(alloc, design, binding, stim, &history)?;
    let want = b"$version xrepair $end\n$timescale 1ns $end\n$scope module top $end\n\
        $var wire 1 ! \\a-b $end\n$upscope $end\n$enddefinitions $end\n\
        #0\n$dumpvars\nx!\n$end\n#10\n1!\n";
    same_items(rt, "the text", text.as_slice(), want.as_slice());
    Ok(())
}

fn check_written(
    rt: &impl Abort,
    alloc: Global,
    design: &Design,
    binding: &Binding,
) -> Result<(), Fail>
    requires nets { length design.now.nets ≡ 1 }
    requires binding { FitsBinding design.now binding.now }
{
    let stim = two_moments(alloc)?;
    check_text(rt, alloc, design, binding, &stim)
}

#[test]
fn a_net_is_written_with_its_moments(rt: HostRuntime) -> Result<(), Fail> {
    let design = design(rt.alloc())?;
    let binding = binding(rt.alloc())?;
    check_written(&rt, rt.alloc(), &design, &binding)
}
