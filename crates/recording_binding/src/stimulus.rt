//! The stimulus of a recording, by what holds each net.

ghost use Rattle.std.specs.Prelude.{◌≡◌, ◌≢◌, ◌<◌, ◌≤◌, ◌^◌, ◌++◌, ℕ, [], ◌∷◌, All, OnOk, IfOk, IfSome, length};
ghost use Rattle.std.specs.Prelude.{slice_index_or};
ghost use Rattle.design_cell.specs.declared.value.Value.TheVariants.{X};
ghost use Rattle.design_circuit.specs.Design.{FitsDesign};
ghost use Rattle.design_circuit.specs.Job.{driver_in};
ghost use Rattle.design_circuit.specs.Stim.{FitsStim};
ghost use Rattle.recording_binding.specs.Holding.{IsHolder, held_in};
ghost use Rattle.recording_binding.specs.Refusal.{place_count};
ghost use Rattle.recording_binding.specs.StimOf as spec;

use crate::inputs::Holder;
use base_lists::{Items, Memory};
use design_cell::Value;
use design_circuit::{Design, Driver, RegisterRules, StartRule, Stim};
use design_inputs::{Inputs, InputsWriter};
use recording_reader::{Cursor, Recording};
use std::alloc::Global;

/// An input of the design and what holds it.
#[derive(Clone, Copy)]
pub struct Held {
    pub net: u32,
    pub holder: Holder,
}

/// The stimulus of a recording, by the bit that holds each net, for a replay of so many rounds: the recorded values of
/// the inputs, and what the registers start with by these rules. Takes eight bytes for each value of an input that
/// isn't that of the moment before, eight for each moment and for each net; while it runs 8 more for each variable.
pub fn stim_of(
    alloc: Global,
    design: &Design,
    recording: &Recording,
    holders: &[Option<Holder>],
    rounds: u32,
    rules: RegisterRules,
) -> Result<Stim, Memory>
    requires design { FitsDesign design.now }
    requires long { length holders.now ≡ length design.now.nets }
    requires held { spec.AreHolders recording.now holders.now }
    requires round { 1 ≤ rounds }
    requires rounds { rounds ≤ 16 }
    requires places { place_count design.now recording.now rounds ≤ 2 ^ 40 }
    ensures stim { IfOk result (spec.IsStimOf design.now recording.now (held_in holders.now) rounds rules) }
    ensures fits { IfOk result (FitsStim design.now) }
{
    let times = copied(alloc, recording.times())?;
    let inputs = rows_of(alloc, design, recording, holders)?;
    let starts = starts_of(alloc, design, recording, holders, rules.start)?;
    Ok(Stim {
        times: Items::from_vec(times),
        rounds,
        inputs,
        rules,
        starts: Items::from_vec(starts),
    })
}

/// The same times.
fn copied(alloc: Global, times: &[u64]) -> Result<Vec<u64>, Memory>
    ensures same { IfOk result (λ copy. copy.items ≡ times.now) }
    ensures small { IfOk result (λ copy. All (λ time. time < 2 ^ 64) copy.items) }
{
    Ok(times.to_vec(alloc)?)
}

/// For each moment the value of each input, and x for any other net.
fn rows_of(
    alloc: Global,
    design: &Design,
    recording: &Recording,
    holders: &[Option<Holder>],
) -> Result<Inputs, Memory>
    requires few { length design.now.nets ≤ 2 ^ 20 }
    requires long { length holders.now ≡ length design.now.nets }
    requires held { spec.AreHolders recording.now holders.now }
    requires moment { 0 < length recording.now.times }
    ensures as_many { IfOk result (λ rows. length rows ≡ length recording.now.times) }
    ensures rows { IfOk result (λ rows. spec.AreRows design.now recording.now holders.now rows) }
{
    let inputs = inputs_of(alloc, design, holders)?;
    let mut cursor = Cursor::new(alloc, recording)?;
    let mut writer = InputsWriter::new(alloc, design.nets.as_slice().len())?;
    set_inputs(&mut writer, &mut cursor, inputs.as_slice(), 0)?;
    'moments: for moment in 1..recording.times().len() as u32 {
        writer.next_moment()?;
        set_inputs(&mut writer, &mut cursor, inputs.as_slice(), moment)?;
    }
    writer.finish(alloc)
}

/// The inputs that a variable holds, each with that.
fn inputs_of(
    alloc: Global,
    design: &Design,
    holders: &[Option<Holder>],
) -> Result<Vec<Held>, Memory>
    requires few { length design.now.nets ≤ 2 ^ 20 }
    requires long { length holders.now ≡ length design.now.nets }
    ensures { IfOk result (λ inputs. inputs.items ≡ spec.inputs_of design.now holders.now) }
{
    let mut inputs = Vec::new(alloc);
    'nets: for (net, holder) in holders.iter().enumerate() {
        put_input(&mut inputs, design, net as u32, *holder)?;
    }
    Ok(inputs)
}

fn put_input(
    inputs: &mut Vec<Held>,
    design: &Design,
    net: u32,
    holder: Option<Holder>,
) -> Result<(), Memory>
    requires { net < length design.now.nets }
    ensures { let more = spec.input_at net holder (driver_in design.now net) in
        OnOk result (inputs.new.items ≡ inputs.old.items ++ more) }
{
    match holder {
        None => Ok(()),
        Some(holder) => put_held(inputs, design, net, holder),
    }
}

fn put_held(inputs: &mut Vec<Held>, design: &Design, net: u32, holder: Holder) -> Result<(), Memory>
    requires { net < length design.now.nets }
    ensures { let more = spec.input_held net holder (driver_in design.now net) in
        OnOk result (inputs.new.items ≡ inputs.old.items ++ more) }
{
    match &design.nets.as_slice()[net as usize].driver {
        Driver::Input => {
            inputs.push(Held { net, holder })?;
            Ok(())
        }
        _ => Ok(()),
    }
}

/// Sets the inputs to their values in a moment, which is under way.
fn set_inputs(
    writer: &mut InputsWriter,
    cursor: &mut Cursor<'_>,
    inputs: &[Held],
    moment: u32,
) -> Result<(), Memory>
    requires moment { moment < length cursor.old.times }
    requires fits { All (spec.FitsHolder cursor.old (length writer.old.row)) inputs.now }
    ensures before { OnOk result (writer.new.before ≡ writer.old.before) }
    ensures long { OnOk result (length writer.new.row ≡ length writer.old.row) }
    ensures set { OnOk result (spec.Sets cursor.old moment inputs.now writer.old.row writer.new.row) }
    ensures same { cursor.new ≡ cursor.old }
{
    'inputs: for input in inputs {
        set_input(writer, cursor, *input, moment)?;
    }
    Ok(())
}

fn set_input(
    writer: &mut InputsWriter,
    cursor: &mut Cursor<'_>,
    input: Held,
    moment: u32,
) -> Result<(), Memory>
    requires moment { moment < length cursor.old.times }
    requires fits { spec.FitsHolder cursor.old (length writer.old.row) input }
    ensures before { OnOk result (writer.new.before ≡ writer.old.before) }
    ensures long { OnOk result (length writer.new.row ≡ length writer.old.row) }
    ensures set { OnOk result (spec.Sets cursor.old moment (input ∷ []) writer.old.row writer.new.row) }
    ensures same { cursor.new ≡ cursor.old }
{
    let holder = input.holder;
    let value = cursor.value(holder.variable, holder.bit, moment);
    writer.set(input.net as usize, value)
}

/// What each net starts with.
fn starts_of(
    alloc: Global,
    design: &Design,
    recording: &Recording,
    holders: &[Option<Holder>],
    rule: StartRule,
) -> Result<Vec<Value>, Memory>
    requires few { length design.now.nets ≤ 2 ^ 20 }
    requires long { length holders.now ≡ length design.now.nets }
    requires held { spec.AreHolders recording.now holders.now }
    requires moment { 0 < length recording.now.times }
    ensures { IfOk result (λ starts.
        spec.IsRow design.now (spec.start_in design.now recording.now holders.now rule) starts.items) }
{
    let mut starts = Vec::new(alloc);
    'nets: for (net, holder) in holders.iter().enumerate() {
        starts.push(start_of(design, recording, net as u32, *holder, rule))?;
    }
    Ok(starts)
}

fn start_of(
    design: &Design,
    recording: &Recording,
    net: u32,
    holder: Option<Holder>,
    rule: StartRule,
) -> Value
    requires net { net < length design.now.nets }
    requires held { IfSome holder (IsHolder recording.now) }
    requires moment { 0 < length recording.now.times }
    ensures { result ≡ spec.start_of recording.now holder rule (driver_in design.now net) }
{
    match &design.nets.as_slice()[net as usize].driver {
        Driver::Register(latching) => start_by(recording, holder, latching.start, rule),
        _ => Value::X,
    }
}

fn start_by(recording: &Recording, holder: Option<Holder>, own: Value, rule: StartRule) -> Value
    requires held { IfSome holder (IsHolder recording.now) }
    requires moment { 0 < length recording.now.times }
    ensures { result ≡ spec.start_by recording.now holder own rule }
{
    match rule {
        StartRule::Cold => own,
        StartRule::Recorded => recorded_start(recording, holder, own),
    }
}

fn recorded_start(recording: &Recording, holder: Option<Holder>, own: Value) -> Value
    requires held { IfSome holder (IsHolder recording.now) }
    requires moment { 0 < length recording.now.times }
    ensures { result ≡ spec.start_by recording.now holder own StartRule.Recorded }
{
    match holder {
        None => own,
        Some(holder) => recording.value(holder.variable, holder.bit, 0).read(),
    }
}
