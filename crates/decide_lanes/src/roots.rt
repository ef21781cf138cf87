//! The roots of places, by their literals.

ghost use Rattle.std.specs.Prelude.{◌≡◌, ◌⊎◌, ◌↔◌, ◌<◌, ◌≤◌, true, MatchOption, IsTrue, not};
ghost use Rattle.design_cell.specs.Value.{is_unknown};
ghost use Rattle.design_circuit.specs.Job.{number_of};
ghost use Rattle.design_circuit.specs.Waveform.{certain};
ghost use Rattle.wave_proved.specs.Contents.{IsWritten, job};
ghost use Rattle.decide_lanes.specs.Lanes.{IsRightOf, count_of};
ghost use Rattle.decide_lanes.specs.Roots.{IsRootAt, IsUncovered};

use crate::lanes::Lanes;
use decide_lane_nodes::literal_at;
use design_circuit::Place;
use wave_proved::Wave;

impl Lanes {
    /// The node of the root of an uncertain place, and that root as `Wave::root_at` gives it, without the way there;
    /// none where the place isn't covered yet, or its literal was forgotten.
    pub fn root_at(&self, wave: &Wave<'_>, place: Place) -> Option<(usize, (Place, bool))>
        requires right { IsRightOf wave.now self.now }
        requires written { IsWritten wave.now place }
        requires uncertain { is_unknown (certain wave.now.written (number_of (job wave.now) place)) ≡ true }
        ensures { MatchOption result (IsUncovered self.now (number_of (job wave.now) place))
            (IsRootAt wave.now self.now place) }
    {
        let number = wave.circuit().number_of(place);
        if number < self.covered().first || self.count() <= number {
            None
        } else {
            Some(self.covered_root(wave, place, number))
        }
    }

    /// That of one that is covered.
    fn covered_root(&self, wave: &Wave<'_>, place: Place, number: usize) -> (usize, (Place, bool))
        requires right { IsRightOf wave.now self.now }
        requires written { IsWritten wave.now place }
        requires uncertain { is_unknown (certain wave.now.written (number_of (job wave.now) place)) ≡ true }
        requires number { number ≡ number_of (job wave.now) place }
        requires first { self.now.first ≤ number }
        requires below { number < count_of self.now }
        ensures { IsRootAt wave.now self.now place result }
    {
        let circuit = wave.circuit();
        let covered = self.covered();
        let literal = literal_at(covered, number);
        let root = circuit.place_of(covered.nodes.place(literal.node()));
        (literal.node(), (root, literal.is_inverted()))
    }
}
