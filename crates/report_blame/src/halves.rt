//! The way from one filling of a place to another, halved until they differ in one place: as many values of a cone as
//! the number of places that the two list has binary digits, and one more; none where they list one place alone.

ghost use Rattle.std.specs.Prelude.{◌≡◌, ◌≤◌, ◌++◌, IfOk, OnOk, length, map};
ghost use Rattle.std.specs.List.{AllByRecursion};
ghost use Rattle.decide_nodes.specs.Traced.{IsConeOf};
ghost use Rattle.design_circuit.specs.Circuit.{job_in};
ghost use Rattle.design_circuit.specs.Filling.{IsPlace};
ghost use Rattle.design_circuit.specs.Job.{number_of};
ghost use Rattle.report_blame.specs.Halves.{AreAlong, IsWay, TurnsAt, halfway};
ghost use Rattle.report_blame.specs.ToBlame.{IsToBlame};

use crate::join::join;
use base_lists::{Items, Memory};
use decide_nodes::Cone;
use design_circuit::{Circuit, Filling, Place};
use std::alloc::Global;
use wave_proved::Wave;

/// A place of a wave, by its number, and two fillings that give it two bits.
#[derive(Clone, Copy)]
pub struct Way<'w, 'a> {
    pub wave: &'w Wave<'a>,
    pub number: usize,
    pub zero: &'w [Place],
    pub one: &'w [Place],
}

/// A place, and a filling that doesn't list it.
#[derive(Drop)]
pub struct Cause {
    pub source: Place,
    pub others: Filling,
}

impl Cause {
    /// The same again. Takes eight bytes for each place.
    pub fn copied(&self, alloc: Global) -> Result<Cause, Memory>
        ensures { IfOk result (λ copy. copy ≡ self.now) }
    {
        Ok(Cause {
            source: self.source,
            others: Items::from_vec(self.others.as_slice().to_vec(alloc)?),
        })
    }
}

/// What is to blame for the place, where the bit turns at the place of a number. Takes eight bytes for each place that
/// the fillings list.
pub fn cause_at(alloc: Global, way: &Way<'_, '_>, cut: usize) -> Result<Cause, Memory>
    requires way { IsWay way.now }
    requires turn { TurnsAt way.now cut }
    ensures { IfOk result (λ cause. IsToBlame way.now.wave.now way.now.number cause.source cause.others) }
{
    let circuit = way.wave.circuit();
    let others = join(alloc, &circuit, way.one, cut, way.zero, cut + 1)?;
    Ok(Cause {
        source: circuit.place_of(cut),
        others,
    })
}

/// The number of a place on the way before which the place has one bit, and behind which it has the other, by the cone
/// of the place. Takes 8 bytes for each place that the fillings list, and the memory of a value of the cone.
pub fn find_turn(
    alloc: Global,
    way: &Way<'_, '_>,
    cone: &Cone,
    listed: &[usize],
) -> Result<usize, Memory>
    requires way { IsWay way.now }
    requires cone { IsConeOf way.now.wave.now way.now.number cone.now.nodes }
    requires listed { AreAlong way.now listed.now }
    ensures { IfOk result (TurnsAt way.now) }
{
    let first = value_at(alloc, way, cone, 0)?;
    let mut low = 0;
    let mut high = listed.len();
    'halves: while high - low > 1 {
        let middle = low + (high - low) / 2;
        if value_at(alloc, way, cone, listed[middle])? == first {
            low = middle;
        } else {
            high = middle;
        }
    }
    Ok(listed[low])
}

/// The bit of the place where the second filling holds below a number and the first from it on.
fn value_at(alloc: Global, way: &Way<'_, '_>, cone: &Cone, cut: usize) -> Result<bool, Memory>
    requires way { IsWay way.now }
    requires cone { IsConeOf way.now.wave.now way.now.number cone.now.nodes }
    ensures { IfOk result (λ bit. bit ≡ halfway way.now.wave.now way.now.zero.now way.now.one.now way.now.number cut) }
{
    let circuit = way.wave.circuit();
    let filling = join(alloc, &circuit, way.one, cut, way.zero, cut)?;
    cone.value(alloc, &filling)
}

/// The number of the place at which the bit turns, where the fillings list one place alone.
pub fn only_turn(way: &Way<'_, '_>, listed: &[usize]) -> usize
    requires way { IsWay way.now }
    requires listed { AreAlong way.now listed.now }
    requires one { length listed.now ≤ 1 }
    ensures { TurnsAt way.now result }
{
    listed[0]
}

/// The numbers of the places that the two fillings list, ascending. Takes 16 bytes for each.
pub fn listed_numbers(alloc: Global, way: &Way<'_, '_>) -> Result<Vec<usize>, Memory>
    requires { IsWay way.now }
    ensures { IfOk result (λ numbers. AreAlong way.now numbers.items) }
{
    let circuit = way.wave.circuit();
    let mut numbers = Vec::new(alloc);
    add_numbers(&mut numbers, &circuit, way.zero)?;
    add_numbers(&mut numbers, &circuit, way.one)?;
    numbers.sort()?;
    Ok(numbers)
}

fn add_numbers(
    numbers: &mut Vec<usize>,
    circuit: &Circuit<'_>,
    filling: &[Place],
) -> Result<(), Memory>
    requires places { AllByRecursion (IsPlace (job_in circuit.now)) filling.now }
    ensures { OnOk result (numbers.new.items ≡ numbers.old.items ++ map (number_of (job_in circuit.now)) filling.now) }
{
    'places: for place in filling {
        numbers.push(circuit.number_of(*place))?;
    }
    Ok(())
}
