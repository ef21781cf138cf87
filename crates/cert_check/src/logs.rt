//! The logs of lines, checked against the query of the next place.

ghost use Rattle.std.specs.Prelude.{◌≡◌, ◌<◌, ◌≤◌, ◌^◌, ◌↔◌, IfNone, IfOk, IfSome, IsTrue, length};
ghost use Rattle.decide_nodes.specs.Traced.{IsNextCone};
ghost use Rattle.decide_cnf.specs.Query.{IsQueryOfNodes};
ghost use Rattle.decide_nodes.specs.Nodes.{nothing, root_bit, sources_of};
ghost use Rattle.law_model.specs.declared.line.Body.TheVariants as body;
ghost use Rattle.sat_proof.specs.Log.{Fit};
ghost use Rattle.cert_check.specs.Step.{IsVerdictOf, RefusesBody};

use base_lists::Memory;
use cert_turns::Cone;
use cert_turns::logs::{checker_for, fits};
use decide_cnf::{clauses, conclude, give_up};
use decide_pair::has_few_sources;
use sat_proof::{Cnf, Log};
use std::alloc::Global;
use wave_proved::{Verdict, Wave};

/// The verdict of a log that refutes the query of the next place, which denies the bit, where that body is accepted.
pub fn refuted_verdict(
    alloc: Global,
    wave: &Wave<'_>,
    cone: &Cone,
    bit: bool,
    log: Log,
) -> Result<Option<Verdict>, Memory>
    requires { IsNextCone wave.now cone.now.nodes }
    ensures verdict { IfOk result (λ found. IfSome found (IsVerdictOf wave.now (body.Refuted bit log))) }
    ensures none { IfOk result (λ found. IfNone found (RefusesBody wave.now (body.Refuted bit log))) }
{
    if !are_same(cone.base(), bit) {
        return Ok(None);
    }
    let query = clauses(alloc, cone)?;
    if fits(&log, query.vars) {
        refuting_verdict(alloc, wave, cone, &query, log)
    } else {
        Ok(None)
    }
}

fn are_same(a: bool, b: bool) -> bool
    ensures { IsTrue result ↔ (a ≡ b) }
{
    a == b
}

/// The same of the bit that the query denies, where the log names its variables alone.
fn refuting_verdict(
    alloc: Global,
    wave: &Wave<'_>,
    cone: &Cone,
    query: &Cnf,
    log: Log,
) -> Result<Option<Verdict>, Memory>
    requires cone { IsNextCone wave.now cone.now.nodes }
    requires query { IsQueryOfNodes cone.now.nodes query.now }
    requires few { query.now.vars ≤ 2 ^ 27 }
    requires fit { Fit query.now.vars log }
    ensures verdict { IfOk result (λ found. IfSome found
        (IsVerdictOf wave.now (body.Refuted (root_bit nothing cone.now.nodes) log))) }
    ensures none { IfOk result (λ found. IfNone found
        (RefusesBody wave.now (body.Refuted (root_bit nothing cone.now.nodes) log))) }
{
    let mut checker = checker_for(alloc, query, &log)?;
    match checker.check(query, log) {
        Ok(proof) => Ok(Some(conclude(wave, cone, proof))),
        Err(_) => Ok(None),
    }
}

/// The verdict of a log that leaves the next place undecided, where that body is accepted.
pub fn exhausted_verdict(
    alloc: Global,
    wave: &Wave<'_>,
    cone: &Cone,
    log: Log,
) -> Result<Option<Verdict>, Memory>
    requires { IsNextCone wave.now cone.now.nodes }
    ensures verdict { IfOk result (λ found. IfSome found (IsVerdictOf wave.now (body.Undecided log))) }
    ensures none { IfOk result (λ found. IfNone found (RefusesBody wave.now (body.Undecided log))) }
{
    if has_few_sources(wave, cone) {
        return Ok(None);
    }
    let query = clauses(alloc, cone)?;
    if fits(&log, query.vars) {
        fresh_verdict(alloc, wave, cone, &query, log)
    } else {
        Ok(None)
    }
}

/// The same where there are more sources than are enumerated, and the log names the query's variables alone.
fn fresh_verdict(
    alloc: Global,
    wave: &Wave<'_>,
    cone: &Cone,
    query: &Cnf,
    log: Log,
) -> Result<Option<Verdict>, Memory>
    requires cone { IsNextCone wave.now cone.now.nodes }
    requires many { wave.now.limits.enumerated < length (sources_of cone.now.nodes) }
    requires query { IsQueryOfNodes cone.now.nodes query.now }
    requires few { query.now.vars ≤ 2 ^ 27 }
    requires fit { Fit query.now.vars log }
    ensures verdict { IfOk result (λ found. IfSome found (IsVerdictOf wave.now (body.Undecided log))) }
    ensures none { IfOk result (λ found. IfNone found (RefusesBody wave.now (body.Undecided log))) }
{
    let mut checker = checker_for(alloc, query, &log)?;
    match checker.check_fresh(query, log, wave.limits().conflicts) {
        Ok(proof) => Ok(Some(give_up(wave, cone, proof))),
        Err(_) => Ok(None),
    }
}
