//! The search on the query of the next place.

ghost use Rattle.std.specs.Prelude.{◌≡◌, ◌<◌, ◌≤◌, IfOk, length};
ghost use Rattle.decide_nodes.specs.Traced.{IsNextCone};
ghost use Rattle.decide_cnf.specs.Query.{IsQueryOfNodes};
ghost use Rattle.decide_nodes.specs.Nodes.{sources_of};
ghost use Rattle.sat_proof.specs.Assignment.{IsModel};
ghost use Rattle.sat_proof.specs.Log.{AreFresh, Fit, Refutes};
ghost use Rattle.wave_proved.specs.Token.{PairHolds};
ghost use Rattle.law_along.specs.Accepted.{AcceptsLine};

use crate::answers::Answers;
use base_lists::Memory;
use decide_cnf::{clauses, conclude, give_up, model_filling};
use decide_cone::Cone;
use design_circuit::Filling;
use law_model::Body;
use sat_proof::{Cnf, Exhausted, Model, Refuted};
use sat_search::Outcome;
use std::alloc::Global;
use wave_proved::{Verdict, Wave};

/// The verdict of the next place, which has more sources than are enumerated, by a search on its query.
#[tactic(auto, using(crate::proofs::Searching::pair_accepted))]
pub fn search(
    alloc: Global,
    wave: &Wave<'_>,
    answers: &mut Answers,
    cone: &Cone,
) -> Result<Verdict, Memory>
    requires cone { IsNextCone wave.now cone.now.nodes }
    requires many { wave.now.limits.enumerated < length (sources_of cone.now.nodes) }
    ensures { IfOk result (AcceptsLine wave.now) }
{
    let query = clauses(alloc, cone)?;
    match answers.ask(alloc, &query, wave.limits().conflicts)? {
        Outcome::Model(model) => pair_of(alloc, wave, cone, &query, &model),
        Outcome::Refuted(proof) => Ok(refuted_by(wave, cone, &query, proof)),
        Outcome::Limit(proof) => Ok(left_by(wave, cone, &query, proof)),
    }
}

/// The empty filling and that of a model, which give the next place both bits.
fn pair_of(
    alloc: Global,
    wave: &Wave<'_>,
    cone: &Cone,
    query: &Cnf,
    model: &Model,
) -> Result<Verdict, Memory>
    requires cone { IsNextCone wave.now cone.now.nodes }
    requires query { IsQueryOfNodes cone.now.nodes query.now }
    requires model { IsModel query.now.vars query.now.clauses model.now }
    ensures { IfOk result (PairHolds wave.now) }
{
    let filling = model_filling(alloc, cone, model)?;
    let empty = Filling::from_vec(Vec::new(alloc));
    if cone.base() {
        Ok(Verdict::from_law(wave, Body::Pair(filling, empty)))
    } else {
        Ok(Verdict::from_law(wave, Body::Pair(empty, filling)))
    }
}

/// A log that refutes the query shows that every filling gives the next place the bit of the empty one.
pub fn refuted_by(wave: &Wave<'_>, cone: &Cone, query: &Cnf, proof: Refuted) -> Verdict
    requires cone { IsNextCone wave.now cone.now.nodes }
    requires query { IsQueryOfNodes cone.now.nodes query.now }
    requires refutes { Refutes query.now.clauses proof }
    requires fit { Fit query.now.vars proof }
    ensures { AcceptsLine wave.now result }
{
    conclude(wave, cone, proof)
}

/// A fresh log as long as the limits say lets the next place be undecided.
fn left_by(wave: &Wave<'_>, cone: &Cone, query: &Cnf, proof: Exhausted) -> Verdict
    requires cone { IsNextCone wave.now cone.now.nodes }
    requires query { IsQueryOfNodes cone.now.nodes query.now }
    requires many { wave.now.limits.enumerated < length (sources_of cone.now.nodes) }
    requires fresh { AreFresh query.now.clauses proof }
    requires long { length proof ≡ wave.now.limits.conflicts }
    requires fit { Fit query.now.vars proof }
    ensures { AcceptsLine wave.now result }
{
    give_up(wave, cone, proof)
}
