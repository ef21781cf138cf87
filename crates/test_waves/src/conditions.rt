//! The condition of an output that has the value of an input, and the query of its first turn.

ghost use Rattle.std.specs.Prelude.{IfOk};
ghost use Rattle.test_waves.specs.Replayed.{IsReplayed};
ghost use Rattle.cert_condition.specs.First.{IsCertainCone};

use crate::asserted::{holds, same, same_items};
use crate::job::Job;
use crate::waves::place_of;
use cert_condition::{Condition, condition_of};
use decide_cone::{Cone, trace_at};
use design_cell::Value;
use design_circuit::{Mark, Place};
use law_model::Class;
use sat_proof::Cnf;
use std::alloc::Global;
use std::process::Abort;
use std::test::Fail;
use wave_proved::Wave;

/// The output is the exclusive or of `a`, `a` and `c`.
const NEEDS_C: &[u8] =
    b"module m(a, c, y); input a, c; output y; wire b; buf (b, a); xor (y, a, b, c); endmodule";

/// Of the inputs `c` is 0, and `a` is x.
const C_ZERO: &[u8] =
    b"$scope module t $end $var wire 1 ! a $end $var wire 1 # c $end $enddefinitions $end #0 x! 0#";

/// The cone of the last place of four, which is certainly 0.
#[tactic(auto, using(crate::proofs::CertainCones::zero_cone))]
fn cone_of_last(alloc: Global, wave: &Wave<'_>) -> Result<Cone, Fail>
    ensures { IfOk result (λ cone. IsCertainCone wave.now cone.nodes) }
{
    if wave.count() != 4 {
        return Err(Fail::new("there aren't four places"));
    }
    let place = place_of(wave, 3);
    match (wave.class_at(place), wave.mark(place), wave.value(place)) {
        (Class::Line, Mark::Certain, Value::Zero) => Ok(trace_at(alloc, wave, place)?),
        _ => Err(Fail::new("the place isn't a Line place that is 0")),
    }
}

/// The output needs `c` alone.
fn check_needs(rt: &impl Abort, alloc: Global, wave: &Wave<'_>) -> Result<(), Fail> {
    let cone = cone_of_last(alloc, wave)?;
    let condition = condition_of(alloc, wave, cone, wave.limits().conflicts)?;
    same(
        rt,
        "the place",
        condition.place(),
        Place { step: 0, net: 2 },
    );
    same_items(
        rt,
        "its condition",
        condition.places(),
        &[Place { step: 0, net: 1 }],
    );
    same(rt, "turns", condition.turns().len(), 1);
    Ok(())
}

/// The first turn leaves `c` out.
fn check_first_query(rt: &impl Abort, alloc: Global, wave: &Wave<'_>) -> Result<(), Fail> {
    let cone = cone_of_last(alloc, wave)?;
    let condition = Condition::new(alloc, wave, cone)?;
    holds(rt, "one turn is due", condition.turns_due() == 1);
    is_first_query(rt, &condition.query(alloc)?);
    Ok(())
}

/// Its variables are `a`, `c` and `y`. For each value of `a` and `c` a clause says what `y` is, and one denies that it
/// is 0.
fn is_first_query(rt: &impl Abort, query: &Cnf) {
    same(rt, "variables", query.vars, 3);
    same(rt, "clauses", query.clauses.as_slice().len(), 5);
    for clause in [[1, 2, -3], [1, -2, 3], [-1, 2, -3], [-1, -2, 3]] {
        holds(rt, "a clause of the gate", has_clause(query, &clause));
    }
    holds(rt, "the denial", has_clause(query, &[3]));
}

fn has_clause(query: &Cnf, literals: &[i32]) -> bool {
    query
        .clauses
        .as_slice()
        .iter()
        .any(|clause| clause.as_slice() == literals)
}

fn check_condition(rt: &impl Abort, alloc: Global, job: &Job) -> Result<(), Fail>
    requires { IsReplayed job.now.netlist job.now.recorded job.now.history }
{
    let wave = job.repaired(alloc)?;
    check_needs(rt, alloc, &wave)?;
    check_first_query(rt, alloc, &wave)
}

#[test]
fn an_output_needs_one_input(rt: HostRuntime) -> Result<(), Fail> {
    let job = Job::read(rt.alloc(), NEEDS_C, C_ZERO)?;
    check_condition(&rt, rt.alloc(), &job)
}
