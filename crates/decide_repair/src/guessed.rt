//! What a guess about the next place shows of it, once it is tested: a filling is tried, and a log is checked.

ghost use Rattle.std.specs.Prelude.{◌≡◌, ◌≤◌, ◌^◌, IfOk, IfSome, OnOk};
ghost use Rattle.law_along.specs.Accepted.{AcceptsLine};
ghost use Rattle.decide_cnf.specs.Query.{IsQueryOfNodes};
ghost use Rattle.decide_cone.specs.Cones.{AreRightOf};
ghost use Rattle.decide_nodes.specs.Traced.{IsNextCone};
ghost use Rattle.decide_cone.specs.Lanes.{IsLookedAt};
ghost use Rattle.sat_proof.specs.Log.{Fit};
ghost use Rattle.wave_proved.specs.Token.{IsLineNext};

use crate::pooled::take_filling;
use crate::search::refuted_by;
use base_lists::Memory;
use decide_cnf::clauses;
use decide_cone::{Cone, Cones, Lanes};
use decide_guess::{Guess, Guesser, NodeBit, given_by, log_of};
use decide_pair::try_lanes;
use decide_pool::Pool;
use sat_proof::{Checker, Cnf, Log};
use std::alloc::Global;
use wave_proved::{Verdict, Wave};

/// A guess ends after so many conflicts, or after a fifth of the clauses that a search may learn, if these are fewer.
const MOST_CONFLICTS: u32 = 200;

/// So many where the sources are few.
const FEW_CONFLICTS: u32 = 30;

const PART: u32 = 5;

/// What a guess about the next place shows of it: none where there is no guess, or it is wrong.
pub fn find_guessed(
    alloc: Global,
    wave: &Wave<'_>,
    cones: &mut Cones,
    pool: &mut Pool,
    guesser: &mut Guesser,
) -> Result<Option<Verdict>, Memory>
    requires class { IsLineNext wave.now }
    requires right { AreRightOf wave.now cones.old }
    requires looked { IsLookedAt wave.now cones.old.lanes }
    ensures accepts { IfOk result (λ found. IfSome found (AcceptsLine wave.now)) }
    ensures right { OnOk result (AreRightOf wave.now cones.new) }
    ensures lanes { OnOk result (cones.new.lanes ≡ cones.old.lanes) }
{
    let limits = wave.limits();
    // Few are settled by all of their fillings, so a log is no better.
    let few = cones.lanes.has_few_sources(limits.enumerated as usize);
    let conflicts = conflicts_for(few, limits.conflicts);
    match guess_other(alloc, &cones.lanes, guesser, conflicts)? {
        Guess::Filling(ones) => {
            take_filling(alloc, &cones.lanes, pool, &ones)?;
            find_by_filling(alloc, wave, cones, &ones)
        }
        Guess::Log(learned) => {
            if few {
                return Ok(None);
            }
            find_by_clauses(alloc, wave, cones, &learned)
        }
        Guess::Nothing => Ok(None),
    }
}

/// After how many conflicts a guess ends.
fn conflicts_for(few: bool, limit: u32) -> u32 {
    let most = if few { FEW_CONFLICTS } else { MOST_CONFLICTS };
    most.min(limit / PART)
}

/// A guess about what gives the next place another bit than the empty filling does. Nothing of it is promised.
fn guess_other(
    alloc: Global,
    lanes: &Lanes,
    guesser: &mut Guesser,
    conflicts: u32,
) -> Result<Guess, Memory> {
    match wanted(lanes) {
        None => Ok(Guess::Nothing),
        Some(node_bit) => match lanes.graph() {
            None => Ok(Guess::Nothing),
            Some(graph) => guesser.guess(alloc, graph, node_bit, conflicts),
        },
    }
}

/// The node of the next place with that bit.
pub fn wanted(lanes: &Lanes) -> Option<NodeBit> {
    let node = lanes.next_node()?;
    let bit = lanes.empty_bit()?;
    Some(NodeBit { node, bit: !bit })
}

/// What a filling shows of the next place, in which some nodes of the graph have 1: two fillings, if it gives that
/// place another bit than the empty one.
#[tactic(auto, using(crate::proofs::Searching::pair_accepted))]
pub fn find_by_filling(
    alloc: Global,
    wave: &Wave<'_>,
    cones: &mut Cones,
    ones: &[u32],
) -> Result<Option<Verdict>, Memory>
    requires class { IsLineNext wave.now }
    requires right { AreRightOf wave.now cones.old }
    requires looked { IsLookedAt wave.now cones.old.lanes }
    ensures accepts { IfOk result (λ found. IfSome found (AcceptsLine wave.now)) }
    ensures right { OnOk result (AreRightOf wave.now cones.new) }
    ensures lanes { OnOk result (cones.new.lanes ≡ cones.old.lanes) }
{
    let cone = cones.cone(alloc, wave)?;
    let given = given_by(alloc, &cone, cones.lanes.positions(), ones)?;
    try_lanes(alloc, wave, &cone, given.as_slice())
}

/// What clauses over nodes of the graph show of the next place, with the empty one after them: its bit, if they refute
/// its query.
fn find_by_clauses(
    alloc: Global,
    wave: &Wave<'_>,
    cones: &mut Cones,
    learned: &[Vec<NodeBit>],
) -> Result<Option<Verdict>, Memory>
    requires class { IsLineNext wave.now }
    requires right { AreRightOf wave.now cones.old }
    requires looked { IsLookedAt wave.now cones.old.lanes }
    ensures accepts { IfOk result (λ found. IfSome found (AcceptsLine wave.now)) }
    ensures right { OnOk result (AreRightOf wave.now cones.new) }
    ensures lanes { OnOk result (cones.new.lanes ≡ cones.old.lanes) }
{
    let cone = cones.cone(alloc, wave)?;
    let query = clauses(alloc, &cone)?;
    match log_of(alloc, cones.lanes.positions(), query.vars, learned)? {
        Some(log) => verdict_if(alloc, wave, &cone, &query, log),
        None => Ok(None),
    }
}

/// The verdict of a log, if it refutes the query of the next place.
fn verdict_if(
    alloc: Global,
    wave: &Wave<'_>,
    cone: &Cone,
    query: &Cnf,
    log: Log,
) -> Result<Option<Verdict>, Memory>
    requires cone { IsNextCone wave.now cone.now.nodes }
    requires query { IsQueryOfNodes cone.now.nodes query.now }
    requires few { query.now.vars ≤ 2 ^ 27 }
    requires fit { Fit query.now.vars log }
    ensures { IfOk result (λ found. IfSome found (AcceptsLine wave.now)) }
{
    let count = query
        .clauses
        .as_slice()
        .len()
        .saturating_add(log.as_slice().len());
    let mut checker = Checker::with_room(alloc, query.vars, count, 0)?;
    match checker.check(query, log) {
        Ok(proof) => Ok(Some(refuted_by(wave, cone, query, proof))),
        Err(_) => Ok(None),
    }
}
