//! A filling up to a place, and another from a place on.

ghost use Rattle.std.specs.Prelude.{◌≡◌, ◌≤◌, ◌++◌, IfOk, OnOk, filter};
ghost use Rattle.std.specs.List.{AllByRecursion};
ghost use Rattle.design_circuit.specs.Circuit.{job_in};
ghost use Rattle.design_circuit.specs.Filling.{IsFilling, IsPlace};
ghost use Rattle.report_blame.specs.Joined.{IsJoined, stands_below, stands_from};

use base_lists::{Items, Memory};
use design_circuit::{Circuit, Filling, Place};
use std::alloc::Global;

/// The places of one filling below a number, and then those of another from a number on. Takes eight bytes for each.
pub fn join(
    alloc: Global,
    circuit: &Circuit<'_>,
    one: &[Place],
    below: usize,
    zero: &[Place],
    from: usize,
) -> Result<Filling, Memory>
    requires one { IsFilling (job_in circuit.now) one.now }
    requires zero { IsFilling (job_in circuit.now) zero.now }
    requires order { below ≤ from }
    ensures { IfOk result (IsJoined (job_in circuit.now) one.now below zero.now from) }
{
    let mut places = Vec::new(alloc);
    add_below(&mut places, circuit, one, below)?;
    add_from(&mut places, circuit, zero, from)?;
    Ok(Items::from_vec(places))
}

fn add_below(
    places: &mut Vec<Place>,
    circuit: &Circuit<'_>,
    filling: &[Place],
    below: usize,
) -> Result<(), Memory>
    requires places { AllByRecursion (IsPlace (job_in circuit.now)) filling.now }
    ensures { OnOk result
        (places.new.items ≡ places.old.items ++ filter (stands_below (job_in circuit.now) below) filling.now) }
{
    'places: for place in filling {
        if circuit.number_of(*place) < below {
            places.push(*place)?;
        }
    }
    Ok(())
}

fn add_from(
    places: &mut Vec<Place>,
    circuit: &Circuit<'_>,
    filling: &[Place],
    from: usize,
) -> Result<(), Memory>
    requires places { AllByRecursion (IsPlace (job_in circuit.now)) filling.now }
    ensures { OnOk result
        (places.new.items ≡ places.old.items ++ filter (stands_from (job_in circuit.now) from) filling.now) }
{
    'places: for place in filling {
        if circuit.number_of(*place) >= from {
            places.push(*place)?;
        }
    }
    Ok(())
}
