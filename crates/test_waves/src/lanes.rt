//! Lanes: what their fixed fillings give the first places of small jobs.

ghost use Rattle.std.specs.Prelude.{◌≡◌, ◌<◌, false, IfOk};
ghost use Rattle.test_waves.specs.Replayed.{IsReplayed};
ghost use Rattle.decide_lanes.specs.Lanes.{IsLookedAt, IsRightOf};
ghost use Rattle.law_model.specs.Cone.{is_carried};
ghost use Rattle.wave_proved.specs.Contents.{class_in, next_number};
ghost use Rattle.wave_proved.specs.Token.{HasNext};

use crate::asserted::{holds, same, same_items};
use crate::job::{Job, ONE_INPUT, UNKNOWN};
use decide_lanes::Lanes;
use design_circuit::{Filling, Place};
use law_model::Class;
use std::alloc::Global;
use std::process::Abort;
use std::test::Fail;
use wave_proved::Wave;

/// The bits of net 0 at step 0 in the first 64 lanes.
const WORD: u64 = 0x5851_f42d_14c4_8b00;

/// The exclusive or of an input and itself.
const SAME: &[u8] = b"module m(a, y); input a; output y; xor (y, a, a); endmodule";

/// A choice of one of two inputs by a third.
const CHOICE: &[u8] = b"module m(d0, d1, s, y); input d0, d1, s; output y; wire ns, a, b;
not (ns, s); and (a, d1, s); and (b, d0, ns); or (y, a, b); endmodule";

/// Its inputs have no values.
const NO_VALUES: &[u8] = b"$scope module t $end $var wire 1 ! d0 $end $var wire 1 # d1 $end
$var wire 1 % s $end $enddefinitions $end #0";

/// The lanes of a wave that have looked at its next place.
fn looked(alloc: Global, wave: &Wave<'_>) -> Result<Lanes, Fail>
    requires next { HasNext wave.now }
    requires free { is_carried (class_in wave.now (next_number wave.now)) ≡ false }
    ensures right { IfOk result (IsRightOf wave.now) }
    ensures looked { IfOk result (IsLookedAt wave.now) }
{
    let mut lanes = Lanes::new(alloc)?;
    lanes.look(alloc, wave)?;
    Ok(lanes)
}

/// What a lane lists of the sources of the next place.
fn listed(alloc: Global, wave: &Wave<'_>, lanes: &Lanes, lane: u32) -> Result<Filling, Fail>
    requires right { IsRightOf wave.now lanes.now }
    requires looked { IsLookedAt wave.now lanes.now }
    requires lane { lane < 256 }
{
    match lanes.filling(alloc, wave, lane)? {
        Some(filling) => Ok(filling),
        None => Err(Fail::new("the sources aren't kept")),
    }
}

fn check_word(rt: &impl Abort, alloc: Global, wave: &Wave<'_>) -> Result<(), Fail>
    requires next { HasNext wave.now }
    requires free { is_carried (class_in wave.now (next_number wave.now)) ≡ false }
{
    let lanes = looked(alloc, wave)?;
    'lanes: for lane in 0u32..64 {
        let filling = listed(alloc, wave, &lanes, lane)?;
        same(
            rt,
            "sources of a lane",
            filling.as_slice().len() as u64,
            WORD >> lane & 1,
        );
    }
    holds(rt, "two lanes differ", lanes.pair(wave).is_some());
    Ok(())
}

fn check_input(rt: &impl Abort, alloc: Global, job: &Job) -> Result<(), Fail>
    requires { IsReplayed job.now.netlist job.now.recorded job.now.history }
{
    let wave = job.unwritten(alloc)?;
    match wave.class() {
        Class::Free => check_word(rt, alloc, &wave),
        _ => Err(Fail::new("the place isn't free")),
    }
}

#[test]
fn an_input_has_the_bits_of_a_fixed_word(rt: HostRuntime) -> Result<(), Fail> {
    let alloc = rt.alloc();
    check_input(&rt, alloc, &Job::read(alloc, ONE_INPUT, UNKNOWN)?)
}

fn check_none(rt: &impl Abort, alloc: Global, wave: &Wave<'_>) -> Result<(), Fail> {
    match wave.class() {
        Class::Local(_) => {
            let lanes = looked(alloc, wave)?;
            holds(rt, "no two lanes differ", lanes.pair(wave).is_none());
            Ok(())
        }
        _ => Err(Fail::new("the place isn't a Local place")),
    }
}

/// The input is advanced over, and the exclusive or is next.
fn check_same(rt: &impl Abort, alloc: Global, job: &Job) -> Result<(), Fail>
    requires { IsReplayed job.now.netlist job.now.recorded job.now.history }
{
    let wave = job.unwritten(alloc)?;
    match wave.class() {
        Class::Free => check_none(rt, alloc, &wave.advance()?),
        _ => Err(Fail::new("the place isn't free")),
    }
}

#[test]
fn no_lanes_differ_where_all_fillings_agree(rt: HostRuntime) -> Result<(), Fail> {
    let alloc = rt.alloc();
    check_same(&rt, alloc, &Job::read(alloc, SAME, UNKNOWN)?)
}

fn check_lists(rt: &impl Abort, alloc: Global, wave: &Wave<'_>) -> Result<(), Fail> {
    match wave.class() {
        Class::Line => {
            let lanes = looked(alloc, wave)?;
            let filling = listed(alloc, wave, &lanes, 8)?;
            same_items(
                rt,
                "the sources",
                filling.as_slice(),
                &[Place { step: 0, net: 2 }],
            );
            Ok(())
        }
        _ => Err(Fail::new("the place isn't a Line place")),
    }
}

fn check_choice(rt: &impl Abort, alloc: Global, job: &Job) -> Result<(), Fail>
    requires { IsReplayed job.now.netlist job.now.recorded job.now.history }
{
    let wave = job.unwritten(alloc)?.advance_to_line()?;
    check_lists(rt, alloc, &wave)
}

#[test]
fn a_lane_lists_one_source_of_two(rt: HostRuntime) -> Result<(), Fail> {
    let alloc = rt.alloc();
    check_choice(&rt, alloc, &Job::read(alloc, CHOICE, NO_VALUES)?)
}
