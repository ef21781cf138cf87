//! Places that are listed or open, and whether the replay reads one for a place.

ghost use Rattle.std.specs.Prelude.{◌≡◌, ◌*◌, ◌<◌, length};
ghost use Rattle.std.specs.List.{AllByRecursion, list_any};
ghost use Rattle.design_circuit.specs.Order.{net_pins};
ghost use Rattle.wave_proved.specs.Contents.{job};
ghost use Rattle.report_audit.specs.Listed as spec;

use design_cell::Value;
use design_circuit::{Driver, History, Latching, Mark, Pin, Place};
use wave_proved::Wave;

/// Whether none of the places whose values the replay reads for a listed place is listed or open.
pub fn is_origin(wave: &Wave<'_>, replayed: &History, place: Place) -> bool
    requires audit { spec.IsAudit wave.now replayed.now }
    requires step { place.step < (job wave.now).moments * (job wave.now).rounds }
    requires net { place.net < (job wave.now).width }
    ensures { result ≡ spec.is_origin wave.now replayed.now place }
{
    is_listed(wave, replayed, place) && !reads_suspect(wave, replayed, place)
}

/// Whether the replay reads a listed or open place for a place.
fn reads_suspect(wave: &Wave<'_>, replayed: &History, place: Place) -> bool
    requires audit { spec.IsAudit wave.now replayed.now }
    requires step { place.step < (job wave.now).moments * (job wave.now).rounds }
    requires net { place.net < (job wave.now).width }
    ensures { result ≡ list_any (spec.is_suspect wave.now replayed.now) (spec.replay_arguments (job wave.now) place) }
{
    let circuit = wave.circuit();
    match &circuit.design.nets.as_slice()[place.net as usize].driver {
        Driver::Copy(argument) => is_suspect(
            wave,
            replayed,
            Place {
                step: place.step,
                net: *argument,
            },
        ),
        Driver::Cell(_, pins) => any_suspect(wave, replayed, place.step, pins.as_slice()),
        Driver::Register(latching) => register_reads_suspect(wave, replayed, place, latching),
        _ => false,
    }
}

fn register_reads_suspect(
    wave: &Wave<'_>,
    replayed: &History,
    place: Place,
    latching: &Latching,
) -> bool
    requires audit { spec.IsAudit wave.now replayed.now }
    requires step { place.step < (job wave.now).moments * (job wave.now).rounds }
    requires net { place.net < (job wave.now).width }
    requires pins { AllByRecursion (λ n. n < (job wave.now).width) (net_pins latching.now.pins) }
    ensures { result ≡ list_any (spec.is_suspect wave.now replayed.now)
        (spec.register_reads (job wave.now) place latching.now) }
{
    if place.step == 0 {
        return false;
    }
    let pins = latching.pins.as_slice();
    old_suspect(wave, replayed, place.step, pins)
        || any_suspect(wave, replayed, place.step - 1, pins)
        || is_suspect(
            wave,
            replayed,
            Place {
                step: place.step - 1,
                net: place.net,
            },
        )
}

/// The same of the pins that a register at a later step looks at two steps back.
fn old_suspect(wave: &Wave<'_>, replayed: &History, step: u32, pins: &[Pin]) -> bool
    requires audit { spec.IsAudit wave.now replayed.now }
    requires later { 0 < step }
    requires step { step < (job wave.now).moments * (job wave.now).rounds }
    requires pins { AllByRecursion (λ n. n < (job wave.now).width) (net_pins pins.now) }
    ensures { result
        ≡ list_any (spec.is_suspect wave.now replayed.now) (spec.earlier_places (job wave.now) step pins.now) }
{
    match wave.circuit().two_back(step as usize) {
        Some(earlier) => any_suspect(wave, replayed, earlier as u32, pins),
        None => false,
    }
}

fn any_suspect(wave: &Wave<'_>, replayed: &History, step: u32, pins: &[Pin]) -> bool
    requires audit { spec.IsAudit wave.now replayed.now }
    requires step { step < (job wave.now).moments * (job wave.now).rounds }
    requires pins { AllByRecursion (λ n. n < (job wave.now).width) (net_pins pins.now) }
    ensures { result ≡ list_any (spec.is_suspect wave.now replayed.now) (spec.places_in step pins.now) }
{
    match pins {
        [] => false,
        [Pin::Net(net), rest @ ..] => {
            is_suspect(wave, replayed, Place { step, net: *net })
                || any_suspect(wave, replayed, step, rest)
        }
        [_, rest @ ..] => any_suspect(wave, replayed, step, rest),
    }
}

/// Whether a place is listed or open.
fn is_suspect(wave: &Wave<'_>, replayed: &History, place: Place) -> bool
    requires audit { spec.IsAudit wave.now replayed.now }
    requires step { place.step < (job wave.now).moments * (job wave.now).rounds }
    requires net { place.net < (job wave.now).width }
    ensures { result ≡ spec.is_suspect wave.now replayed.now place }
{
    is_listed(wave, replayed, place) || is_open(wave, replayed, place)
}

/// Whether the replay knows a place that is certain with another value, or unknown.
pub fn is_listed(wave: &Wave<'_>, replayed: &History, place: Place) -> bool
    requires audit { spec.IsAudit wave.now replayed.now }
    requires step { place.step < (job wave.now).moments * (job wave.now).rounds }
    requires net { place.net < (job wave.now).width }
    ensures { result ≡ spec.is_listed wave.now replayed.now place }
{
    // With it comes the fact that the job fits.
    wave.recall();
    lists(wave.mark(place), wave.value(place), replayed.shown(place))
}

/// Whether the replay knows a place that is undecided.
fn is_open(wave: &Wave<'_>, replayed: &History, place: Place) -> bool
    requires audit { spec.IsAudit wave.now replayed.now }
    requires step { place.step < (job wave.now).moments * (job wave.now).rounds }
    requires net { place.net < (job wave.now).width }
    ensures { result ≡ spec.is_open wave.now replayed.now place }
{
    // With it comes the fact that the job fits.
    wave.recall();
    match wave.mark(place) {
        Mark::Certain => false,
        Mark::Unknown => false,
        Mark::Undecided => replayed.shown(place).is_known(),
    }
}

/// Whether the replay's value is known, at a place that is certain with another one, or unknown.
pub fn lists(mark: Mark, value: Value, replayed: Value) -> bool
    ensures { result ≡ spec.lists mark value replayed }
{
    match mark {
        Mark::Certain => replayed.is_known() && value != replayed,
        Mark::Unknown => replayed.is_known(),
        Mark::Undecided => false,
    }
}

/// Whether it is known, at a place that is undecided.
pub fn leaves_open(mark: Mark, replayed: Value) -> bool
    ensures { result ≡ spec.leaves_open mark replayed }
{
    match mark {
        Mark::Certain => false,
        Mark::Unknown => false,
        Mark::Undecided => replayed.is_known(),
    }
}
