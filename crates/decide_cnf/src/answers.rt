//! What the answers of a search on the query of a cone are worth.

ghost use Rattle.std.specs.Prelude.{◌≡◌, ◌<◌, length};
ghost use Rattle.std.specs.List.{All};
ghost use Rattle.sat_proof.specs.Assignment.{HasNoZero};
ghost use Rattle.decide_nodes.specs.Nodes.{nothing, root_bit, sources_of};
ghost use Rattle.law_model.specs.declared.line.Body.TheVariants as body;
ghost use Rattle.wave_proved.specs.Token.{LineHolds};
ghost use Rattle.decide_cnf.specs.Answers.{IsFreshNext, RefutesNext};
ghost use Rattle.decide_nodes.specs.Traced.{IsNextCone};

use decide_nodes::Cone;
use law_model::Body;
use sat_proof::{Exhausted, Refuted};
use wave_proved::{Verdict, Wave};

/// A log that refutes the query of the next place shows that every filling gives the bit that the query denies.
pub fn conclude(wave: &Wave<'_>, cone: &Cone, proof: Refuted) -> Verdict
    requires cone { IsNextCone wave.now cone.now.nodes }
    requires refutes { RefutesNext wave.now proof }
    ensures holds { LineHolds wave.now result }
    ensures body { result.body ≡ body.Refuted (root_bit nothing cone.now.nodes) proof }
    ensures no_zero { All HasNoZero proof }
{
    Verdict::from_law(wave, Body::Refuted(cone.base(), proof.into_log()))
}

/// A fresh log as long as the wave's limits say lets the next place be undecided where it has more sources than are
/// enumerated.
pub fn give_up(wave: &Wave<'_>, cone: &Cone, proof: Exhausted) -> Verdict
    requires cone { IsNextCone wave.now cone.now.nodes }
    requires many { wave.now.limits.enumerated < length (sources_of cone.now.nodes) }
    requires fresh { IsFreshNext wave.now proof }
    requires long { length proof ≡ wave.now.limits.conflicts }
    ensures holds { LineHolds wave.now result }
    ensures body { result.body ≡ body.Undecided proof }
    ensures no_zero { All HasNoZero proof }
{
    Verdict::from_law(wave, Body::Undecided(proof.into_log()))
}
