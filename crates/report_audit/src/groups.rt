//! How many origins each row of each primitive gave.

ghost use Rattle.std.specs.BTreeMap.{IsOrdered};
ghost use Rattle.std.specs.List.{AllByRecursion};
ghost use Rattle.std.specs.Map.{count_at};
ghost use Rattle.std.specs.Prelude.{◌≡◌, ◌<◌, All, IfOk, OnOk, Some, length, map};
ghost use Rattle.design_circuit.specs.Circuit.{job_in};
ghost use Rattle.report_audit.specs.Counted as counted;
ghost use Rattle.report_audit.specs.Found.{HasPlace, IsDriven};
ghost use Rattle.report_audit.specs.Groups as spec;

use crate::found::Found;
use base_lists::Memory;
use design_circuit::{Circuit, Driver, Table, driver_at};
use std::alloc::Global;
use std::collections::BTreeMap;

/// The origins that one row of a primitive gave.
#[derive(Clone, Copy, Debug)]
pub struct Group {
    /// The primitive's position among the design's.
    pub primitive: u32,
    /// None where no pin changed or no row matched.
    pub row: Option<usize>,
    pub places: u64,
}

/// A primitive, and a row of it or none.
type Giver = (u32, Option<usize>);

/// Each primitive and row that gave origins, with their number, by the number of the primitive and by the row, none
/// first. Takes some 80 bytes for each.
pub fn groups_of(
    alloc: Global,
    circuit: &Circuit<'_>,
    listed: &[Found],
) -> Result<Vec<Group>, Memory>
    requires places { AllByRecursion (HasPlace (job_in circuit.now)) listed.now }
    requires driven { AllByRecursion (IsDriven (job_in circuit.now)) listed.now }
    ensures { IfOk result (λ groups. spec.AreGroups (job_in circuit.now) listed.now groups.items) }
{
    let counts = count_origins(alloc, circuit, listed)?;
    list_counts(alloc, &counts)
}

fn count_origins(
    alloc: Global,
    circuit: &Circuit<'_>,
    listed: &[Found],
) -> Result<BTreeMap<Giver, u64>, Memory>
    requires places { AllByRecursion (HasPlace (job_in circuit.now)) listed.now }
    requires driven { AllByRecursion (IsDriven (job_in circuit.now)) listed.now }
    ensures { IfOk result (λ counts. counted.AreCounted (job_in circuit.now) listed.now counts) }
{
    let mut counts = BTreeMap::new(alloc);
    'listed: for found in listed {
        count_if(&mut counts, giver_of(circuit, found))?;
    }
    Ok(counts)
}

fn giver_of(circuit: &Circuit<'_>, found: &Found) -> Option<Giver>
    requires { HasPlace (job_in circuit.now) found.now }
    ensures { result ≡ spec.giver_of (job_in circuit.now) found.now }
{
    let primitive = primitive_of(driver_at(circuit, found.place.net as usize));
    giver_by(found.origin, primitive, found.row)
}

fn primitive_of(driver: &Driver) -> Option<u32>
    ensures { result ≡ spec.primitive_of_driver driver.now }
{
    match driver {
        Driver::Cell(Table::Udp(number), _) => Some(*number),
        Driver::Register(latching) => Some(latching.udp),
        _ => None,
    }
}

fn giver_by(origin: bool, primitive: Option<u32>, row: Option<usize>) -> Option<Giver>
    ensures { result ≡ spec.giver_by origin primitive row }
{
    if !origin {
        return None;
    }
    match primitive {
        Some(primitive) => Some((primitive, row)),
        None => None,
    }
}

fn count_if(counts: &mut BTreeMap<Giver, u64>, giver: Option<Giver>) -> Result<(), Memory>
    requires { counted.IsSmall counts.old }
    ensures { OnOk result (counted.CountsIf giver counts.old counts.new) }
{
    match giver {
        Some(giver) => count_one(counts, giver),
        None => Ok(()),
    }
}

fn count_one(counts: &mut BTreeMap<Giver, u64>, giver: Giver) -> Result<(), Memory>
    requires { counted.IsSmall counts.old }
    ensures { OnOk result (counted.CountsOne giver counts.old counts.new) }
{
    let before = count_of(counts, &giver);
    counts.insert(giver, before + 1)?;
    Ok(())
}

fn count_of(counts: &BTreeMap<Giver, u64>, giver: &Giver) -> u64
    ensures { result ≡ count_at (counted.count_of counts.now) giver.now }
{
    match counts.get(giver) {
        Some(count) => *count,
        None => 0,
    }
}

fn list_counts(alloc: Global, counts: &BTreeMap<Giver, u64>) -> Result<Vec<Group>, Memory>
    ensures groups { IfOk result (λ groups. groups.items ≡ map counted.group_of counts.now.entries) }
    ensures ordered { IsOrdered counted.compared counts.now }
    ensures found { All (λ entry. counted.count_of counts.now entry.0 ≡ Some entry.1) counts.now.entries }
{
    let mut groups = Vec::new(alloc);
    'counts: for (giver, places) in counts.iter() {
        groups.push(Group {
            primitive: giver.0,
            row: giver.1,
            places: *places,
        })?;
    }
    Ok(groups)
}
