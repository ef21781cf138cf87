//! The moments of the text.

ghost use Rattle.std.specs.Prelude.{◌≡◌, ◌<◌, ◌++◌, All, OnOk, map};
ghost use Rattle.recording_writer.specs.Moments as spec;
ghost use Rattle.recording_writer.specs.Readers.{SameUnlessDue};
ghost use Rattle.recording_writer.specs.Rows.{HasEnds, end_before, moment_end};
ghost use Rattle.recording_writer.specs.Steps.{HasBits, HasNets, HasStep};

use crate::code::put_code;
use crate::rows::MomentRows;
use crate::shown::Shown;
use base_lists::{Memory, put, put_number};
use recording_binding::Bound;
use replay_due::Due;

/// Puts the moment at which the rows stand: at the first one every variable, at a later one each that differs from the
/// moment before.
pub fn put_moment<R: Shown>(
    text: &mut Vec<u8>,
    bound: &[Bound],
    rows: &MomentRows<R>,
    time: u64,
) -> Result<(), Memory>
    requires ends { HasEnds rows.now }
    requires bits { All (HasBits rows.now.history) bound.now }
    ensures { let lines = spec.moment_lines rows.now.history rows.now.rounds bound.now rows.now.moment time in
        OnOk result (text.new.items ≡ text.old.items ++ lines) }
{
    put_time(text, time)?;
    if rows.moment() == 0 {
        put_dump(text, bound, rows.row())
    } else {
        put_changed(text, bound, rows)
    }
}

/// The same at a later moment, where each variable that isn't due shows what it did in the moment before. Costs the
/// bits of those that are.
pub fn put_marked<R: Shown>(
    text: &mut Vec<u8>,
    bound: &[Bound],
    due: &Due,
    rows: &MomentRows<R>,
    time: u64,
) -> Result<(), Memory>
    requires later { 0 < rows.now.moment }
    requires ends { HasEnds rows.now }
    requires bits { All (HasBits rows.now.history) bound.now }
    requires same { SameUnlessDue rows.now.history bound.now (moment_end rows.now) (end_before rows.now) due.now }
    ensures { let lines = spec.moment_lines rows.now.history rows.now.rounds bound.now rows.now.moment time in
        OnOk result (text.new.items ≡ text.old.items ++ lines) }
{
    put_time(text, time)?;
    put_due(text, bound, due, rows)
}

fn put_time(text: &mut Vec<u8>, time: u64) -> Result<(), Memory>
    ensures { OnOk result (text.new.items ≡ text.old.items ++ spec.time_line time) }
{
    put(text, b"#")?;
    put_number(text, time)?;
    put(text, b"\n")
}

fn put_dump<R: Shown>(text: &mut Vec<u8>, bound: &[Bound], row: &R) -> Result<(), Memory>
    requires step { HasStep (R.view row.now).history (R.view row.now).step }
    requires bits { All (HasBits (R.view row.now).history) bound.now }
    ensures { let lines = spec.dump_lines (R.view row.now).history (R.view row.now).step bound.now in
        OnOk result (text.new.items ≡ text.old.items ++ lines) }
{
    put(text, b"$dumpvars\n")?;
    put_values(text, bound, row)?;
    put(text, b"$end\n")
}

fn put_values<R: Shown>(text: &mut Vec<u8>, bound: &[Bound], row: &R) -> Result<(), Memory>
    requires step { HasStep (R.view row.now).history (R.view row.now).step }
    requires bits { All (HasBits (R.view row.now).history) bound.now }
    ensures { let lines = spec.value_lines (R.view row.now).history (R.view row.now).step 0 bound.now in
        OnOk result (text.new.items ≡ text.old.items ++ lines) }
{
    'variables: for (number, variable) in bound.iter().enumerate() {
        put_value(text, number, variable.bits.as_slice(), row)?;
    }
    Ok(())
}

fn put_changed<R: Shown>(
    text: &mut Vec<u8>,
    bound: &[Bound],
    rows: &MomentRows<R>,
) -> Result<(), Memory>
    requires ends { HasEnds rows.now }
    requires bits { All (HasBits rows.now.history) bound.now }
    ensures { let lines = spec.changed_lines rows.now.history (moment_end rows.now) (end_before rows.now) 0 bound.now in
        OnOk result (text.new.items ≡ text.old.items ++ lines) }
{
    'variables: for (number, variable) in bound.iter().enumerate() {
        put_change(text, number, variable.bits.as_slice(), rows)?;
    }
    Ok(())
}

/// The same, where each variable that isn't due shows the same at both steps.
fn put_due<R: Shown>(
    text: &mut Vec<u8>,
    bound: &[Bound],
    due: &Due,
    rows: &MomentRows<R>,
) -> Result<(), Memory>
    requires ends { HasEnds rows.now }
    requires bits { All (HasBits rows.now.history) bound.now }
    requires same { SameUnlessDue rows.now.history bound.now (moment_end rows.now) (end_before rows.now) due.now }
    ensures { let lines = spec.changed_lines rows.now.history (moment_end rows.now) (end_before rows.now) 0 bound.now in
        OnOk result (text.new.items ≡ text.old.items ++ lines) }
{
    let mut number = due.first_from(0);
    'variables: while number < bound.len() {
        put_change(text, number, bound[number].bits.as_slice(), rows)?;
        number = due.first_from(number + 1);
    }
    Ok(())
}

/// The value of a variable whose bits are these nets, where it is another than at the step before.
fn put_change<R: Shown>(
    text: &mut Vec<u8>,
    number: usize,
    nets: &[u32],
    rows: &MomentRows<R>,
) -> Result<(), Memory>
    requires ends { HasEnds rows.now }
    requires nets { HasNets rows.now.history nets.now }
    ensures { let end = moment_end rows.now in
        let line = spec.change_line rows.now.history end (end_before rows.now) number nets.now in
        OnOk result (text.new.items ≡ text.old.items ++ line) }
{
    if is_same(nets, rows.row(), rows.before()) {
        return Ok(());
    }
    put_value(text, number, nets, rows.row())
}

/// Whether each bit shows the same in two rows of a history.
fn is_same<R: Shown>(bits: &[u32], row: &R, before: &R) -> bool
    requires one { (R.view before.now).history ≡ (R.view row.now).history }
    requires step { HasStep (R.view row.now).history (R.view row.now).step }
    requires before { HasStep (R.view row.now).history (R.view before.now).step }
    requires bits { All (λ net. net < (R.view row.now).history.nets) bits.now }
    ensures { result ≡ spec.are_same (R.view row.now).history (R.view row.now).step (R.view before.now).step bits.now }
{
    'bits: for net in bits {
        if letter_at(row, *net) != letter_at(before, *net) {
            return false;
        }
    }
    true
}

fn letter_at<R: Shown>(row: &R, net: u32) -> u8
    requires step { HasStep (R.view row.now).history (R.view row.now).step }
    requires net { net < (R.view row.now).history.nets }
    ensures { result ≡ spec.letter_at (R.view row.now).history (R.view row.now).step net }
{
    row.shown(net).letter()
}

// value = digit code | "b" digit { digit } " " code
fn put_value<R: Shown>(
    text: &mut Vec<u8>,
    number: usize,
    nets: &[u32],
    row: &R,
) -> Result<(), Memory>
    requires step { HasStep (R.view row.now).history (R.view row.now).step }
    requires nets { HasNets (R.view row.now).history nets.now }
    ensures { let line = spec.value_line (R.view row.now).history (R.view row.now).step number nets.now in
        OnOk result (text.new.items ≡ text.old.items ++ line) }
{
    if nets.len() == 1 {
        put_letters(text, nets, row)?;
    } else {
        put(text, b"b")?;
        put_letters(text, nets, row)?;
        put(text, b" ")?;
    }
    put_code(text, number)?;
    put(text, b"\n")
}

fn put_letters<R: Shown>(text: &mut Vec<u8>, bits: &[u32], row: &R) -> Result<(), Memory>
    requires step { HasStep (R.view row.now).history (R.view row.now).step }
    requires bits { All (λ net. net < (R.view row.now).history.nets) bits.now }
    ensures { let letters = map (spec.letter_at (R.view row.now).history (R.view row.now).step) bits.now in
        OnOk result (text.new.items ≡ text.old.items ++ letters) }
{
    'bits: for net in bits {
        text.push(letter_at(row, *net))?;
    }
    Ok(())
}
