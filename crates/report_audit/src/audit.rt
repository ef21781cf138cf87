//! What an audit tells of the places of a wave.

ghost use Rattle.std.specs.Prelude.{◌≡◌, ◌+◌, ◌<◌, ◌≤◌, ◌^◌, IfOk, OnOk};
ghost use Rattle.std.specs.List.{AllByRecursion};
ghost use Rattle.design_circuit.specs.Job.{places_of};
ghost use Rattle.report_bits.specs.Counts.{one_if};
ghost use Rattle.wave_proved.specs.Contents.{job};
ghost use Rattle.report_audit.specs.First.{MeetFirst};
ghost use Rattle.report_audit.specs.Found as spec;
ghost use Rattle.report_audit.specs.Groups.{AreGroups};
ghost use Rattle.report_audit.specs.Listed.{IsAudit, is_listed, is_open};
ghost use Rattle.report_audit.specs.Seen.{AreSeen, BeginsStep, StandsInRow};

use crate::found::{Found, add_listed};
use crate::groups::{Group, groups_of};
use crate::suspects::{leaves_open, lists};
use base_lists::Memory;
use design_circuit::{History, HistoryRow, Place, Written, width_of};
use std::alloc::Global;
use wave_proved::Wave;

/// What an audit tells.
#[derive(Debug, Drop)]
pub struct Audit {
    /// The listed places, in place order.
    pub listed: Vec<Found>,
    /// What gave the origins among them.
    pub groups: Vec<Group>,
    /// How many places that the replay knows are undecided.
    pub unsure: u64,
}

/// The audit of a finished wave of the blank history beside the replay. Takes the fillings of the unknown places that
/// are listed and a byte for each net, and time linear in the pins of all places.
pub fn audit_of(alloc: Global, wave: &Wave<'_>, replayed: &History) -> Result<Audit, Memory>
    requires { IsAudit wave.now replayed.now }

    // The listed places, the groups of their origins, and the number of the open places.
    ensures listed { IfOk result (λ audit. spec.AreFound wave.now replayed.now
        (spec.listed_below wave.now replayed.now (places_of (job wave.now))) audit.listed.items) }
    ensures groups { IfOk result (λ audit. AreGroups (job wave.now) audit.listed.items audit.groups.items) }
    ensures unsure { IfOk result (λ audit. audit.unsure
        ≡ spec.open_below wave.now replayed.now (places_of (job wave.now))) }

    // Each origin is driven by a primitive.
    ensures driven { IfOk result (λ audit. AllByRecursion (spec.IsDriven (job wave.now)) audit.listed.items) }

    // Where nothing is undecided, each list of lines without an undecided body that meets an optimistic place for the
    // replay meets its first one at the first listed place, and there is such a list exactly where one is listed.
    ensures first { IfOk result (λ audit. MeetFirst wave.now replayed.now audit.listed.items) }

    // What is told is at places of the job.
    ensures places { IfOk result (λ audit. AllByRecursion (spec.HasPlace (job wave.now)) audit.listed.items) }
{
    let Seen { listed, unsure } = see_places(alloc, wave, replayed)?;
    let groups = groups_of(alloc, &wave.circuit(), listed.as_slice())?;
    Ok(Audit {
        listed,
        groups,
        unsure,
    })
}

/// What was seen so far.
#[derive(Drop)]
struct Seen {
    /// The listed places, in place order.
    listed: Vec<Found>,
    /// How many places are open.
    unsure: u64,
}

/// Looks at all places, step by step.
fn see_places(alloc: Global, wave: &Wave<'_>, replayed: &History) -> Result<Seen, Memory>
    requires { IsAudit wave.now replayed.now }
    ensures listed { IfOk result (λ seen. spec.AreFound wave.now replayed.now
        (spec.listed_below wave.now replayed.now (places_of (job wave.now))) seen.listed.items) }
    ensures driven { IfOk result (λ seen. AllByRecursion (spec.IsDriven (job wave.now)) seen.listed.items) }
    ensures first { IfOk result (λ seen. MeetFirst wave.now replayed.now seen.listed.items) }
    ensures places { IfOk result (λ seen. AllByRecursion (spec.HasPlace (job wave.now)) seen.listed.items) }
    ensures unsure { IfOk result (λ seen. seen.unsure
        ≡ spec.open_below wave.now replayed.now (places_of (job wave.now))) }
{
    let count = wave.count();
    let width = width_of(&wave.circuit());
    let mut row = HistoryRow::first(alloc, replayed)?;
    let mut seen = Seen {
        listed: Vec::new(alloc),
        unsure: 0,
    };
    let mut first = 0;
    'steps: while first < count {
        see_step(alloc, &mut seen, wave, &row, first)?;
        first += width;
        row.next_step();
    }
    Ok(seen)
}

/// Looks at the places of the step of a row, of which the first one has the number.
fn see_step(
    alloc: Global,
    seen: &mut Seen,
    wave: &Wave<'_>,
    row: &HistoryRow<'_>,
    first: usize,
) -> Result<(), Memory>
    requires step { BeginsStep wave.now row.now first }
    requires before { AreSeen wave.now row.now.history first seen.old.listed.items seen.old.unsure }
    ensures { let behind = first + (job wave.now).width in
        OnOk result (AreSeen wave.now row.now.history behind seen.new.listed.items seen.new.unsure) }
{
    let circuit = wave.circuit();
    let step = row.step() as u32;
    'positions: for position in 0..width_of(&circuit) {
        let net = circuit.order.net(position as u32);
        let written = wave.written(first + position);
        see_place(alloc, seen, wave, row, Place { step, net }, written)?;
    }
    Ok(())
}

/// Looks at a place. One that is neither listed nor open costs no look-up by its number.
fn see_place(
    alloc: Global,
    seen: &mut Seen,
    wave: &Wave<'_>,
    row: &HistoryRow<'_>,
    place: Place,
    written: Written,
) -> Result<(), Memory>
    requires place { StandsInRow wave.now row.now place written }
    requires few { seen.old.unsure < 2 ^ 40 }
    ensures listed { OnOk result (spec.Adds wave.now row.now.history seen.old.listed.items
        (spec.listed_if (is_listed wave.now row.now.history place) place) seen.new.listed.items) }
    ensures unsure { OnOk result
        (seen.new.unsure ≡ seen.old.unsure + one_if (is_open wave.now row.now.history place)) }
{
    add_seen(alloc, &mut seen.listed, wave, row, place, written)?;
    seen.unsure += one_if(leaves_open(written.mark, row.shown(place.net)));
    Ok(())
}

fn add_seen(
    alloc: Global,
    listed: &mut Vec<Found>,
    wave: &Wave<'_>,
    row: &HistoryRow<'_>,
    place: Place,
    written: Written,
) -> Result<(), Memory>
    requires { StandsInRow wave.now row.now place written }
    ensures { OnOk result (spec.Adds wave.now row.now.history listed.old.items
        (spec.listed_if (is_listed wave.now row.now.history place) place) listed.new.items) }
{
    if lists(written.mark, written.value, row.shown(place.net)) {
        add_listed(alloc, listed, wave, row.history(), place)
    } else {
        Ok(())
    }
}

fn one_if(passes: bool) -> u64
    ensures one { result ≡ one_if passes }
    ensures few { result ≤ 1 }
{
    if passes { 1 } else { 0 }
}
