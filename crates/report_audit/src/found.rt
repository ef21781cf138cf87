//! What is told of a listed place.

ghost use Rattle.std.specs.Prelude.{◌≡◌, ◌*◌, ◌<◌, OnOk};
ghost use Rattle.design_circuit.specs.Waveform.{certain_by};
ghost use Rattle.wave_proved.specs.Contents.{job};
ghost use Rattle.report_audit.specs.Found as spec;
ghost use Rattle.report_audit.specs.Listed.{IsAudit, is_listed};
ghost use Rattle.report_audit.specs.Row.{IsRowTold};

use crate::rows::row_at;
use crate::suspects::{is_listed, is_origin};
use base_lists::Memory;
use design_cell::Value;
use design_circuit::{Filling, History, Mark, Place};
use std::alloc::Global;
use wave_proved::Wave;

/// A place that the replay knows and that is certain with another value, or unknown.
#[derive(Debug, Drop)]
pub struct Found {
    pub place: Place,
    pub replayed: Value,
    /// x where the place is unknown.
    pub found: Value,
    /// Two fillings that give 0 and 1, where the place is unknown.
    pub pair: Option<(Filling, Filling)>,
    /// Nothing that the replay reads for it is listed or open.
    pub origin: bool,
    /// Of an origin the row of its primitive that made it, the first being 1.
    pub row: Option<usize>,
}

/// Tells a place, where it is listed.
pub fn add_listed(
    alloc: Global,
    listed: &mut Vec<Found>,
    wave: &Wave<'_>,
    replayed: &History,
    place: Place,
) -> Result<(), Memory>
    requires audit { IsAudit wave.now replayed.now }
    requires step { place.step < (job wave.now).moments * (job wave.now).rounds }
    requires net { place.net < (job wave.now).width }
    ensures { OnOk result (spec.Adds wave.now replayed.now listed.old.items
        (spec.listed_if (is_listed wave.now replayed.now place) place) listed.new.items) }
{
    // With it comes the fact that the job fits.
    wave.recall();
    if !is_listed(wave, replayed, place) {
        return Ok(());
    }
    let origin = is_origin(wave, replayed, place);
    listed.push(Found {
        place,
        replayed: replayed.shown(place),
        found: certain_value(wave.mark(place), wave.value(place)),
        pair: wave.pair_of(alloc, place)?,
        origin,
        row: row_if(origin, wave, replayed, place),
    })?;
    Ok(())
}

fn certain_value(mark: Mark, value: Value) -> Value
    ensures { result ≡ certain_by mark value }
{
    match mark {
        Mark::Certain => value,
        Mark::Unknown => Value::X,
        Mark::Undecided => Value::X,
    }
}

fn row_if(origin: bool, wave: &Wave<'_>, replayed: &History, place: Place) -> Option<usize>
    requires audit { IsAudit wave.now replayed.now }
    requires step { place.step < (job wave.now).moments * (job wave.now).rounds }
    requires net { place.net < (job wave.now).width }
    ensures { IsRowTold origin (job wave.now) replayed.now place result }
{
    if origin {
        row_at(wave, replayed, place)
    } else {
        None
    }
}
