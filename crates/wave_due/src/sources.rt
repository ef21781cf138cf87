//! The positions on which the recording acts: those of inputs, and of nets without a driver.

ghost use Rattle.std.specs.Prelude.{◌≡◌, ◌+◌, ◌*◌, ◌<◌, ◌≤◌, false, IfOk, IsFalse, OnOk, length};
ghost use Rattle.design_cell.specs.declared.value.Value.{Value as AnyValue};
ghost use Rattle.design_circuit.specs.Circuit.{job_in};
ghost use Rattle.replay_fans.specs.Marks.{OnlyMore};
ghost use Rattle.replay_fans.specs.Nets.{driver_on, net_on};
ghost use Rattle.law_model.specs.Class as class;
ghost use Rattle.wave_bytes.specs.OfQuiet as quiet;
ghost use Rattle.wave_bytes.specs.OfQuiet.{IsRecordedOn};
ghost use Rattle.replay_due.specs.Due.{HasRoomFor, is_due};
ghost use Rattle.wave_due.specs.Sources as spec;
ghost use Rattle.wave_due.specs.Sources.{AreSources, AreSourcesDue, AreStirredDue};

use base_lists::Memory;
use design_cell::Value;
use design_circuit::{Circuit, Driver, driver_at, recorded_at, width_of};
use replay_due::Due;
use std::alloc::Global;

/// Those of a circuit. Takes four bytes for each.
pub fn sources_of(alloc: Global, circuit: &Circuit<'_>) -> Result<Vec<u32>, Memory>
    ensures { IfOk result (λ sources. AreSources (job_in circuit.now) (job_in circuit.now).width sources.items) }
{
    let mut sources = Vec::new(alloc);
    let nets = width_of(circuit);
    'positions: for position in 0..nets {
        push_source(circuit, position as u32, &mut sources)?;
    }
    Ok(sources)
}

/// A position more, if it is one.
fn push_source(circuit: &Circuit<'_>, position: u32, sources: &mut Vec<u32>) -> Result<(), Memory>
    requires position { position < (job_in circuit.now).width }
    requires sources { AreSources (job_in circuit.now) position sources.old.items }
    ensures { OnOk result (AreSources (job_in circuit.now) (position + 1) sources.new.items) }
{
    let net = circuit.order.net(position);
    if is_source(driver_at(circuit, net as usize)) {
        sources.push(position)?;
    }
    Ok(())
}

fn is_source(driver: &Driver) -> bool
    ensures { result ≡ spec.is_source driver.now }
{
    match driver {
        Driver::Input => true,
        Driver::Undriven => true,
        Driver::Constant(_) => false,
        Driver::Copy(_) => false,
        Driver::Cell(_, _) => false,
        Driver::Register(_) => false,
    }
}

/// Those become due that the recording may stir in a step.
pub fn mark_sources(circuit: &Circuit<'_>, sources: &[u32], step: usize, due: &mut Due)
    requires sources { AreSources (job_in circuit.now) (job_in circuit.now).width sources.now }
    requires later { 0 < step }
    requires step { step < (job_in circuit.now).moments * (job_in circuit.now).rounds }
    requires room { HasRoomFor due.old (job_in circuit.now).width }
    ensures long { length due.new ≡ length due.old }
    ensures more { OnlyMore due.old due.new }
    ensures stirred { AreStirredDue (job_in circuit.now) step due.new }
{
    if !circuit.begins_moment(step) {
        return;
    }
    mark_listed(circuit, sources, step, due);
}

/// Those become due that may be stirred in a step that begins a moment.
fn mark_listed(circuit: &Circuit<'_>, sources: &[u32], step: usize, due: &mut Due)
    requires sources { AreSources (job_in circuit.now) (job_in circuit.now).width sources.now }
    requires later { 0 < step }
    requires step { step < (job_in circuit.now).moments * (job_in circuit.now).rounds }
    requires room { HasRoomFor due.old (job_in circuit.now).width }
    ensures long { length due.new ≡ length due.old }
    ensures more { OnlyMore due.old due.new }
    ensures listed { AreSourcesDue (job_in circuit.now) step sources.now (length sources.now) due.new }
{
    'sources: for position in sources {
        mark_source(circuit, *position, step, due);
    }
}

/// One of them becomes due, if it may be stirred.
fn mark_source(circuit: &Circuit<'_>, position: u32, step: usize, due: &mut Due)
    requires position { position < (job_in circuit.now).width }
    requires later { 0 < step }
    requires step { step < (job_in circuit.now).moments * (job_in circuit.now).rounds }
    requires room { HasRoomFor due.old (job_in circuit.now).width }
    ensures long { length due.new ≡ length due.old }
    ensures more { OnlyMore due.old due.new }
    ensures here { is_due due.new position ≡ false → IsRecordedOn (job_in circuit.now) step
        (net_on (job_in circuit.now) position) (driver_on (job_in circuit.now) position) }
{
    let net = circuit.order.net(position);
    if is_stirred(circuit, step, net as usize) {
        due.insert(position as usize);
    }
}

/// Whether the recording may stir a net in a step that begins a moment.
fn is_stirred(circuit: &Circuit<'_>, step: usize, net: usize) -> bool
    requires net { net < (job_in circuit.now).width }
    requires later { 0 < step }
    requires step { step < (job_in circuit.now).moments * (job_in circuit.now).rounds }
    ensures { IsFalse result → IsRecordedOn (job_in circuit.now) step net ((job_in circuit.now).driver net) }
{
    match driver_at(circuit, net) {
        Driver::Input => !is_recorded_same(circuit, step, net),
        Driver::Undriven => true,
        Driver::Constant(_) => false,
        Driver::Copy(_) => false,
        Driver::Cell(_, _) => false,
        Driver::Register(_) => false,
    }
}

/// Whether an input is recorded with the same known value as a step before.
fn is_recorded_same(circuit: &Circuit<'_>, step: usize, net: usize) -> bool
    requires net { net < (job_in circuit.now).width }
    requires later { 0 < step }
    requires step { step < (job_in circuit.now).moments * (job_in circuit.now).rounds }
    ensures { result ≡ quiet.is_recorded_same (job_in circuit.now) step net }
{
    are_equal(
        recorded_at(circuit, step, net),
        recorded_at(circuit, step - 1, net),
    )
}

fn are_equal(x: Value, y: Value) -> bool
    ensures { result ≡ class.are_equal x y }
{
    match x {
        Value::Zero => matches!(y, Value::Zero),
        Value::One => matches!(y, Value::One),
        Value::X => false,
        Value::Z => false,
    }
}
