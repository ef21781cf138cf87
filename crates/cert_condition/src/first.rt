//! Conditions of cones, with which the turns begin.

ghost use Rattle.std.specs.Prelude.{◌≡◌, ◌<◌, ◌+◌, ◌-◌, [], IfOk, length};
ghost use Rattle.decide_cone.specs.Boundary.{IsCertainBoundary};
ghost use Rattle.decide_nodes.specs.Nodes.{node_at};
ghost use Rattle.cert_condition.specs.First.{IsCertainCone, IsConditionOfCone, IsNextFirst};
ghost use Rattle.cert_condition.specs.View.{due_count};

use crate::condition::{Condition, due_count};
use crate::next::NextQuery;
use crate::query::first_query;
use base_lists::{Items, Memory};
use decide_cone::certain_boundary;
use decide_nodes::Cone;
use design_circuit::Place;
use sat_proof::{Clause, Cnf};
use std::alloc::Global;
use wave_proved::Wave;

impl Condition {
    /// The condition of a certain place that has a cone, with no turn made. Takes memory for all turns, and where one
    /// is due for the clauses of the cone with its whole tables, of at most 2^13 values each.
    pub fn new(alloc: Global, wave: &Wave<'_>, cone: Cone) -> Result<Condition, Memory>
        requires { IsCertainCone wave.now cone.nodes }
        ensures condition { IfOk result (IsConditionOfCone wave.now cone.nodes) }
        ensures none { IfOk result (λ condition. condition.turns ≡ []) }
        ensures limit { IfOk result (λ condition. condition.limit ≡ wave.now.limits.conflicts) }
    {
        let listed = certain_boundary(alloc, wave, &cone)?;
        let next = next_of(alloc, wave, &cone, listed.as_slice())?;
        Condition::begin(
            alloc,
            last_place(&cone),
            listed,
            next,
            wave.limits().conflicts,
        )
    }
}

/// The place of the last node, which is the one that the cone is of.
fn last_place(cone: &Cone) -> Place
    ensures { result ≡ (node_at cone.now.nodes (length cone.now.nodes - 1)).place }
{
    let nodes = cone.nodes();
    nodes[nodes.len() - 1].place
}

/// The query of the first turn, if one is due.
fn next_of(
    alloc: Global,
    wave: &Wave<'_>,
    cone: &Cone,
    listed: &[Place],
) -> Result<NextQuery, Memory>
    requires cone { IsCertainCone wave.now cone.now.nodes }
    requires listed { IsCertainBoundary wave.now cone.now.nodes listed.now }
    ensures first { IfOk result (IsNextFirst wave.now cone.now.nodes) }
    ensures long { IfOk result (λ next.
        0 < due_count (length listed.now) → length next.query.clauses ≡ next.cone + length listed.now) }
{
    if due_count(listed.len()) > 0 {
        first_query(alloc, wave, cone, listed)
    } else {
        Ok(no_query(alloc))
    }
}

/// A query of nothing.
fn no_query(alloc: Global) -> NextQuery {
    NextQuery {
        query: Cnf {
            vars: 0,
            clauses: Items::from_vec(Vec::new(alloc)),
        },
        cone: 0,
        away: Clause::from_vec(Vec::new(alloc)),
    }
}
