//! Finished waves: their worlds, fillings and values, and the report of one.

ghost use Rattle.std.specs.Prelude.{◌≡◌, ◌<◌, length};
ghost use Rattle.test_waves.specs.Replayed.{IsReplayed};
ghost use Rattle.design_circuit.specs.Fits.{place_at};
ghost use Rattle.recording_binding.specs.Binding.{FitsBinding};
ghost use Rattle.wave_proved.specs.Contents.{IsFinished, IsWritten, job};

use crate::asserted::{holds, same, same_items};
use crate::job::{Job, ONE_INPUT, UNKNOWN};
use base_lists::Items;
use design_cell::Value;
use design_circuit::{Place, spot_of};
use recording_binding::Binding;
use report_bits::{ReportLines, bit_lines, head_lines};
use std::alloc::Global;
use std::process::Abort;
use std::test::Fail;
use wave_proved::Wave;
use wave_world::fill;

/// An input and its complement, which are never both 1.
const NEVER_BOTH: &[u8] =
    b"module m(a, y); input a; output y; wire n; not (n, a); and (y, a, n); endmodule";

/// The written place of a number.
pub fn place_of(wave: &Wave<'_>, number: usize) -> Place
    requires { number < length wave.now.written }
    ensures place { result ≡ place_at (job wave.now) number }
    ensures written { IsWritten wave.now result }
{
    let spot = spot_of(&wave.circuit(), number);
    Place {
        step: spot.step as u32,
        net: spot.net as u32,
    }
}

/// Compares the one place, which is free, in the worlds of its two fillings.
fn check_worlds(rt: &impl Abort, alloc: Global, wave: &Wave<'_>) -> Result<(), Fail> {
    holds(rt, "one place", wave.count() == 1);
    check_one(rt, alloc, wave, place_of(wave, 0))?;
    check_zero(rt, alloc, wave, place_of(wave, 0))
}

fn check_one(rt: &impl Abort, alloc: Global, wave: &Wave<'_>, place: Place) -> Result<(), Fail>
    requires { IsWritten wave.now place }
{
    let one = fill(alloc, wave, &Items::from_vec([place].to_vec(alloc)?))?;
    holds(rt, "the input is 1", one.value(place));
    Ok(())
}

fn check_zero(rt: &impl Abort, alloc: Global, wave: &Wave<'_>, place: Place) -> Result<(), Fail>
    requires { IsWritten wave.now place }
{
    let zero = fill(alloc, wave, &Items::from_vec(Vec::new(alloc)))?;
    holds(rt, "the input is 0", !zero.value(place));
    Ok(())
}

fn check_free(rt: &impl Abort, alloc: Global, job: &Job) -> Result<(), Fail>
    requires { IsReplayed job.now.netlist job.now.recorded job.now.history }
{
    let wave = job.repaired(alloc)?;
    check_worlds(rt, alloc, &wave)
}

#[test]
fn a_free_place_has_its_filling(rt: HostRuntime) -> Result<(), Fail> {
    let job = Job::read(rt.alloc(), ONE_INPUT, UNKNOWN)?;
    check_free(&rt, rt.alloc(), &job)
}

/// Compares the fillings that show the second place unknown, and the third settled.
fn check_pairs(rt: &impl Abort, alloc: Global, wave: &Wave<'_>) -> Result<(), Fail> {
    holds(rt, "three places", wave.count() == 3);
    match wave.pair_of(alloc, place_of(wave, 1))? {
        Some((zero, one)) => {
            let free = place_of(wave, 0);
            same_items(rt, "its complement is 1", zero.as_slice(), &[free]);
            holds(rt, "its complement is 0", one.as_slice().is_empty());
        }
        None => return Err(Fail::new("the complement is unknown")),
    }
    holds(
        rt,
        "the third has no pair",
        wave.pair_of(alloc, place_of(wave, 2))?.is_none(),
    );
    Ok(())
}

/// Compares what the places show: the second is unknown, the third settled.
fn check_values(rt: &impl Abort, wave: &Wave<'_>) {
    holds(rt, "three places", wave.count() == 3);
    same(
        rt,
        "the second is unknown",
        wave.value(place_of(wave, 1)),
        Value::X,
    );
    same(
        rt,
        "the third is settled",
        wave.value(place_of(wave, 2)),
        Value::Zero,
    );
}

fn check_complement(rt: &impl Abort, alloc: Global, wave: &Wave<'_>) -> Result<(), Fail> {
    check_values(rt, wave);
    check_pairs(rt, alloc, wave)
}

fn check_never_both(rt: &impl Abort, alloc: Global, job: &Job) -> Result<(), Fail>
    requires { IsReplayed job.now.netlist job.now.recorded job.now.history }
{
    let wave = job.repaired(alloc)?;
    check_complement(rt, alloc, &wave)
}

#[test]
fn a_net_and_its_complement_are_never_both_one(rt: HostRuntime) -> Result<(), Fail> {
    let job = Job::read(rt.alloc(), NEVER_BOTH, UNKNOWN)?;
    check_never_both(&rt, rt.alloc(), &job)
}

fn check_report(
    rt: &impl Abort,
    alloc: Global,
    wave: &Wave<'_>,
    binding: &Binding,
) -> Result<(), Fail>
    requires finished { IsFinished wave.now }
    requires binding { FitsBinding wave.now.design binding.now }
{
    let bits = bit_lines(alloc, wave, binding, ReportLines::All)?;
    same_items(rt, "its line", bits.as_slice(), b"#0 a x unknown\n");
    let head = head_lines(alloc, wave, 2)?;
    let want =
        b"places 1 moments 1 rounds 1\nknown 0 repaired 0 unknown 1 undecided 0\nforces 2 lines 0\n";
    same_items(rt, "the head", head.as_slice(), want.as_slice());
    Ok(())
}

fn check_unknown(rt: &impl Abort, alloc: Global, job: &Job) -> Result<(), Fail>
    requires { IsReplayed job.now.netlist job.now.recorded job.now.history }
{
    let wave = job.repaired(alloc)?;
    check_report(rt, alloc, &wave, &job.recorded.binding)
}

#[test]
fn a_free_place_is_unknown(rt: HostRuntime) -> Result<(), Fail> {
    let job = Job::read(rt.alloc(), ONE_INPUT, UNKNOWN)?;
    check_unknown(&rt, rt.alloc(), &job)
}
