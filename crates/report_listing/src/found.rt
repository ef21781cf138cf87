//! The lines of an audit.

ghost use Rattle.std.specs.Prelude.{◌≡◌, ◌++◌, OnOk};
ghost use Rattle.std.specs.List.{AllByRecursion, flat_map};
ghost use Rattle.report_audit.specs.Found.{HasPlace};
ghost use Rattle.report_listing.specs.Audit as spec;
ghost use Rattle.wave_proved.specs.Contents.{job};

use crate::places::{put_filling, put_timed};
use base_lists::{Memory, put, put_number};
use design_cell::Value;
use design_circuit::Filling;
use report_audit::{Found, Group};
use report_bits::counts_of;
use std::alloc::Global;
use wave_proved::Wave;

// head = "audit places " number " listed " number " open " number " undecided " number
pub fn put_audit_head(
    alloc: Global,
    text: &mut Vec<u8>,
    wave: &Wave<'_>,
    listed: usize,
    unsure: u64,
) -> Result<(), Memory>
    ensures { OnOk result (text.new.items ≡ text.old.items ++ spec.audit_head wave.now listed unsure) }
{
    let undecided = counts_of(alloc, wave)?.undecided;
    put_counted(text, b"audit places ", wave.count() as u64)?;
    put_counted(text, b" listed ", listed as u64)?;
    put_counted(text, b" open ", unsure)?;
    put_counted(text, b" undecided ", undecided)?;
    put(text, b"\n")
}

#[tactic(auto, unfolding(crate::specs::Audit::counted_text))]
fn put_counted(text: &mut Vec<u8>, words: &[u8], number: u64) -> Result<(), Memory>
    ensures { OnOk result (text.new.items ≡ text.old.items ++ spec.counted_text words.now number) }
{
    put(text, words)?;
    put_number(text, number)
}

/// The lines of the listed places, in their order.
pub fn put_found(
    alloc: Global,
    text: &mut Vec<u8>,
    wave: &Wave<'_>,
    listed: &[Found],
) -> Result<(), Memory>
    requires { AllByRecursion (HasPlace (job wave.now)) listed.now }
    ensures { OnOk result (text.new.items ≡ text.old.items ++ flat_map (spec.found_line wave.now) listed.now) }
{
    'listed: for found in listed {
        put_found_line(alloc, text, wave, found)?;
    }
    Ok(())
}

// line = timed values [ pair ]
fn put_found_line(
    alloc: Global,
    text: &mut Vec<u8>,
    wave: &Wave<'_>,
    found: &Found,
) -> Result<(), Memory>
    requires { HasPlace (job wave.now) found.now }
    ensures { OnOk result (text.new.items ≡ text.old.items ++ spec.found_line wave.now found.now) }
{
    put_timed(alloc, text, wave, found.place)?;
    put_values(text, found.replayed, found.found)?;
    put_pair(text, &found.pair)?;
    put(text, b"\n")
}

// values = " replayed " value " found " value
fn put_values(text: &mut Vec<u8>, replayed: Value, found: Value) -> Result<(), Memory>
    ensures { OnOk result (text.new.items ≡ text.old.items ++ spec.values_text replayed found) }
{
    put(text, b" replayed ")?;
    put(text, &[replayed.letter()])?;
    put(text, b" found ")?;
    put(text, &[found.letter()])
}

// pair = " by" filling " ;" filling
#[tactic(auto, unfolding(crate::specs::Audit::pair_text))]
fn put_pair(text: &mut Vec<u8>, pair: &Option<(Filling, Filling)>) -> Result<(), Memory>
    ensures { OnOk result (text.new.items ≡ text.old.items ++ spec.pair_text pair.now) }
{
    match pair {
        Some((zero, one)) => {
            put(text, b" by")?;
            put_filling(text, zero.as_slice())?;
            put(text, b" ;")?;
            put_filling(text, one.as_slice())
        }
        None => Ok(()),
    }
}

/// The lines of the groups, in their order.
pub fn put_groups(text: &mut Vec<u8>, groups: &[Group]) -> Result<(), Memory>
    ensures { OnOk result (text.new.items ≡ text.old.items ++ flat_map spec.group_line groups.now) }
{
    'groups: for group in groups {
        put_group(text, *group)?;
    }
    Ok(())
}

// line = "primitive " number " row " ( "none" | number ) " places " number
fn put_group(text: &mut Vec<u8>, group: Group) -> Result<(), Memory>
    ensures { OnOk result (text.new.items ≡ text.old.items ++ spec.group_line group) }
{
    put(text, b"primitive ")?;
    put_number(text, u64::from(group.primitive))?;
    put(text, b" row ")?;
    put_row(text, group.row)?;
    put(text, b" places ")?;
    put_number(text, group.places)?;
    put(text, b"\n")
}

fn put_row(text: &mut Vec<u8>, row: Option<usize>) -> Result<(), Memory>
    ensures { OnOk result (text.new.items ≡ text.old.items ++ spec.row_text row) }
{
    match row {
        Some(row) => put_number(text, row as u64),
        None => put(text, b"none"),
    }
}
