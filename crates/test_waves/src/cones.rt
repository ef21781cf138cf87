//! Cones, the clauses of one, and the minimal choices of tables.

ghost use Rattle.test_waves.specs.Replayed.{IsReplayed};

use crate::asserted::{holds, same, same_items};
use crate::job::{Job, UNKNOWN};
use crate::waves::place_of;
use base_lists::Items;
use decide_choices::{Choice, minimal_choices};
use decide_cnf::clauses;
use decide_cone::{Cone, trace, trace_at};
use decide_nodes::{ConeLanes, LaneBits, NodeBody};
use design_cell::Value;
use design_circuit::{Filling, Place};
use law_model::Class;
use std::alloc::Global;
use std::process::Abort;
use std::test::Fail;
use wave_proved::Wave;

/// The exclusive or of two inputs.
const XOR: &[u8] = b"module m(a, b, y); input a, b; output y; xor (y, a, b); endmodule";

/// They are x.
const TWO_UNKNOWN: &[u8] =
    b"$scope module t $end $var wire 1 ! a $end $var wire 1 # b $end $enddefinitions $end #0 x! x#";

/// An input or its complement.
const EITHER: &[u8] =
    b"module m(a, y); input a; output y; wire n; not (n, a); or (y, a, n); endmodule";

/// The cone of the third place, before which no place has a line.
fn third_cone(alloc: Global, job: &Job) -> Result<Cone, Fail>
    requires { IsReplayed job.now.netlist job.now.recorded job.now.history }
{
    let wave = advanced(advanced(job.unwritten(alloc)?)?)?;
    next_cone(alloc, &wave)
}

fn advanced(wave: Wave<'_>) -> Result<Wave<'_>, Fail> {
    match wave.class() {
        Class::Free => Ok(wave.advance()?),
        Class::Carried(_, _) => Ok(wave.advance()?),
        _ => Err(Fail::new("the place is neither free nor carried")),
    }
}

fn next_cone(alloc: Global, wave: &Wave<'_>) -> Result<Cone, Fail> {
    match wave.class() {
        Class::Line => Ok(trace(alloc, wave)?),
        _ => Err(Fail::new("the place isn't a Line place")),
    }
}

/// The same cone, asked for by the place once all are written.
fn third_cone_again(alloc: Global, job: &Job) -> Result<Cone, Fail>
    requires { IsReplayed job.now.netlist job.now.recorded job.now.history }
{
    let wave = job.repaired(alloc)?;
    cone_of_third(alloc, &wave)
}

fn cone_of_third(alloc: Global, wave: &Wave<'_>) -> Result<Cone, Fail> {
    if wave.count() != 3 {
        return Err(Fail::new("there aren't three places"));
    }
    let place = place_of(wave, 2);
    match wave.class_at(place) {
        Class::Line => Ok(trace_at(alloc, wave, place)?),
        _ => Err(Fail::new("the place isn't a Line place")),
    }
}

fn is_xor(rt: &impl Abort, cone: &Cone) -> Result<(), Fail> {
    match cone.nodes() {
        [a, b, y] => {
            same(rt, "the first", a.place, Place { step: 0, net: 0 });
            same(rt, "the second", b.place, Place { step: 0, net: 1 });
            same(rt, "the third", y.place, Place { step: 0, net: 2 });
            match &y.body {
                NodeBody::Rule { arguments, values } => {
                    let table = [Value::Zero, Value::One, Value::One, Value::Zero];
                    same_items(rt, "its arguments", arguments.as_slice(), &[0, 1]);
                    same_items(rt, "its table", values.as_slice(), table.as_slice());
                    Ok(())
                }
                NodeBody::Carried { .. } => Err(Fail::new("the place is carried")),
            }
        }
        _ => Err(Fail::new("the cone hasn't three places")),
    }
}

fn check_xor(rt: &impl Abort, alloc: Global, job: &Job) -> Result<(), Fail>
    requires { IsReplayed job.now.netlist job.now.recorded job.now.history }
{
    let cone = third_cone(alloc, job)?;
    is_xor(rt, &cone)
}

fn check_xor_again(rt: &impl Abort, alloc: Global, job: &Job) -> Result<(), Fail>
    requires { IsReplayed job.now.netlist job.now.recorded job.now.history }
{
    let cone = third_cone_again(alloc, job)?;
    is_xor(rt, &cone)
}

fn check_both_xors(rt: &impl Abort, alloc: Global, job: &Job) -> Result<(), Fail>
    requires { IsReplayed job.now.netlist job.now.recorded job.now.history }
{
    check_xor(rt, alloc, job)?;
    check_xor_again(rt, alloc, job)
}

#[test]
fn an_exclusive_or_rests_on_both(rt: HostRuntime) -> Result<(), Fail> {
    let job = Job::read(rt.alloc(), XOR, TWO_UNKNOWN)?;
    check_both_xors(&rt, rt.alloc(), &job)
}

/// Compares what a filling of the second source alone gives the cone, by itself and in lanes of two sources.
fn check_fillings(rt: &impl Abort, alloc: Global, cone: &Cone) -> Result<(), Fail> {
    let one = Items::from_vec([Place { step: 0, net: 1 }].to_vec(alloc)?);
    check_filling(rt, alloc, cone, &one)
}

fn check_filling(rt: &impl Abort, alloc: Global, cone: &Cone, one: &Filling) -> Result<(), Fail> {
    holds(rt, "two sources", cone.sources().len() == 2);
    holds(rt, "0 where all are 0", !cone.base());
    holds(rt, "1 where one is 1", cone.value(alloc, one)?);
    check_lanes(rt, alloc, cone)?;
    let chosen = cone.chosen(alloc, &[low(0b0011), low(0b0101)], 2)?;
    same_items(rt, "the chosen", chosen.as_slice(), one.as_slice());
    Ok(())
}

fn check_lanes(rt: &impl Abort, alloc: Global, cone: &Cone) -> Result<(), Fail> {
    holds(rt, "two sources", cone.sources().len() == 2);
    let mut lane_table = ConeLanes::new(alloc, cone)?;
    same(
        rt,
        "the lanes",
        lane_table.root(cone, &[low(0b0011), low(0b0101)]),
        low(0b0110),
    );
    Ok(())
}

/// The lanes that have a number's bits in its first lanes.
fn low(bits: u64) -> LaneBits {
    LaneBits::new([bits, 0, 0, 0])
}

fn check_fillings_of(rt: &impl Abort, alloc: Global, job: &Job) -> Result<(), Fail>
    requires { IsReplayed job.now.netlist job.now.recorded job.now.history }
{
    let cone = third_cone(alloc, job)?;
    check_fillings(rt, alloc, &cone)
}

#[test]
fn a_filling_of_one_source_turns_an_exclusive_or(rt: HostRuntime) -> Result<(), Fail> {
    let job = Job::read(rt.alloc(), XOR, TWO_UNKNOWN)?;
    check_fillings_of(&rt, rt.alloc(), &job)
}

fn check_clauses(rt: &impl Abort, alloc: Global, cone: &Cone) -> Result<(), Fail> {
    let cnf = clauses(alloc, cone)?;
    match cnf.clauses.as_slice() {
        [denied, first, second] => {
            same(rt, "variables", cnf.vars, 2);
            same_items(rt, "the denial", denied.as_slice(), &[-2]);
            same_items(rt, "the first clause", first.as_slice(), &[-1, 2]);
            same_items(rt, "the second clause", second.as_slice(), &[1, 2]);
            Ok(())
        }
        _ => Err(Fail::new("there aren't three clauses")),
    }
}

fn check_query(rt: &impl Abort, alloc: Global, job: &Job) -> Result<(), Fail>
    requires { IsReplayed job.now.netlist job.now.recorded job.now.history }
{
    let cone = third_cone(alloc, job)?;
    check_clauses(rt, alloc, &cone)
}

#[test]
fn clauses_of_either(rt: HostRuntime) -> Result<(), Fail> {
    let job = Job::read(rt.alloc(), EITHER, UNKNOWN)?;
    check_query(&rt, rt.alloc(), &job)
}

#[test]
fn choices_of_and_and_parity(rt: HostRuntime) -> Result<(), Fail> {
    let (zero, one) = (Value::Zero, Value::One);
    let and = minimal_choices(rt.alloc(), &[zero, zero, zero, one], false)?;
    let parity = [zero, one, one, zero, one, zero, zero, one];
    let odd = minimal_choices(rt.alloc(), &parity, true)?;
    let first = Choice { care: 1, bits: 0 };
    let second = Choice { care: 2, bits: 0 };
    same_items(&rt, "choices of and", and.as_slice(), &[first, second]);
    same(&rt, "choices of parity", odd.len(), 4);
    holds(
        &rt,
        "of all three",
        odd.iter().all(|choice| choice.care == 7),
    );
    Ok(())
}
