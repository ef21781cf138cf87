//! The query of the first turn of a condition.

ghost use Rattle.std.specs.Prelude.{◌≡◌, ◌+◌, ◌<◌, IfOk, length, map};
ghost use Rattle.std.specs.List.{AllByRecursion};
ghost use Rattle.design_circuit.specs.Circuit.{job_in};
ghost use Rattle.design_circuit.specs.Filling.{IsPlace};
ghost use Rattle.design_circuit.specs.Job.{number_of};
ghost use Rattle.decide_cone.specs.Boundary.{IsCertainBoundary};
ghost use Rattle.cert_condition.specs.First.{HaveTurnNodes, IsCertainCone, IsFirstQuery, IsQueryOver};

use crate::assemble::assemble;
use crate::next::NextQuery;
use crate::nodes::turn_nodes;
use crate::units::{denial_of, unit_literals};
use base_lists::Memory;
use decide_cnf::{literals_of, node_clauses, variables_of};
use decide_cone::{cone_places, near_places};
use decide_nodes::{Cone, Node};
use design_circuit::{Circuit, Place};
use std::alloc::Global;
use wave_proved::Wave;

/// The query of all certain boundary places but the first. Takes memory for the nodes of the cone and its boundary with
/// their whole tables, which goes again, and for the clauses.
pub fn first_query(
    alloc: Global,
    wave: &Wave<'_>,
    cone: &Cone,
    listed: &[Place],
) -> Result<NextQuery, Memory>
    requires cone { IsCertainCone wave.now cone.now.nodes }
    requires listed { IsCertainBoundary wave.now cone.now.nodes listed.now }
    requires some { 0 < length listed.now }
    ensures query { IfOk result (IsFirstQuery wave.now cone.now.nodes) }
    ensures long { IfOk result (λ next. length next.query.clauses ≡ next.cone + length listed.now) }
{
    let places = near_places(alloc, wave, cone)?;
    let inside = cone_places(alloc, wave, cone)?;
    let nodes = turn_nodes(alloc, wave, places.as_slice(), inside.as_slice())?;
    let numbers = numbers_of(alloc, &wave.circuit(), listed)?;
    query_over(
        alloc,
        wave,
        places.as_slice(),
        nodes.as_slice(),
        numbers.as_slice(),
    )
}

fn numbers_of(alloc: Global, circuit: &Circuit<'_>, places: &[Place]) -> Result<Vec<usize>, Memory>
    requires places { AllByRecursion (IsPlace (job_in circuit.now)) places.now }
    ensures { IfOk result (λ numbers. numbers.items ≡ map (number_of (job_in circuit.now)) places.now) }
{
    let mut numbers = Vec::with_capacity(alloc, places.len())?;
    'places: for place in places {
        numbers.push(circuit.number_of(*place))?;
    }
    Ok(numbers)
}

/// The same from the nodes, the numbers of their places and those of the certain boundary.
fn query_over(
    alloc: Global,
    wave: &Wave<'_>,
    places: &[usize],
    nodes: &[Node],
    numbers: &[usize],
) -> Result<NextQuery, Memory>
    requires nodes { HaveTurnNodes wave.now places.now nodes.now numbers.now }
    requires some { 0 < length numbers.now }
    ensures query { IfOk result (IsQueryOver wave.now places.now nodes.now numbers.now) }
    ensures long { IfOk result (λ next. length next.query.clauses ≡ next.cone + length numbers.now) }
{
    let literals = literals_of(alloc, nodes)?;
    let units = unit_literals(alloc, wave, places, literals.as_slice(), numbers)?;
    let denial = denial_of(wave, places, literals.as_slice());
    let clauses = node_clauses(alloc, nodes, literals.as_slice())?;
    assemble(
        alloc,
        variables_of(nodes) as u32,
        clauses,
        units.as_slice(),
        denial,
    )
}
