//! Places that keep: each has what its net's place a step before has.

ghost use Rattle.std.specs.Prelude.{◌≡◌, ◌<◌, ◌≤◌, false, length};
ghost use Rattle.wave_proved.specs.Contents.{job};
ghost use Rattle.wave_proved.specs.Kept.{AllKeepFrom, keeps_there};

use crate::wave::Wave;
use design_circuit::width_of;

impl<'a> Wave<'a> {
    /// Up to where every written place from one on keeps, at most up to an end. Costs a binary search, and one more for
    /// each place that was written anew.
    pub fn kept_up_to(&self, number: usize, end: usize) -> usize
        requires from { number ≤ end }
        requires written { end ≤ length self.now.written }
        ensures from { number ≤ result }
        ensures within { result ≤ end }
        ensures keep { AllKeepFrom (job self.now) self.now.written number result }
        ensures stops { result < end → keeps_there (job self.now) self.now.written result ≡ false }
    {
        let mut place = self.again_up_to(number, end);
        'places: while place < end && self.keeps(place) {
            place = self.again_up_to(place + 1, end);
        }
        place
    }

    /// Up to where no place from one on was written anew, at most up to an end; those of the first step all were.
    fn again_up_to(&self, number: usize, end: usize) -> usize
        requires from { number ≤ end }
        requires written { end ≤ length self.now.written }
        ensures from { number ≤ result }
        ensures within { result ≤ end }
        ensures keep { AllKeepFrom (job self.now) self.now.written number result }
    {
        if number < width_of(&self.circuit()) {
            return number;
        }
        self.waveform().anew_from(number, end)
    }
}
