//! A circuit: a design with its order and its stimulus.

ghost use Rattle.design_circuit.specs.Parts.{PartsFit, PartsFit-prop};

use crate::design::Design;
use crate::order::Order;
use crate::place::Place;
use crate::spot::{spot_of, width_of};
use crate::stim::{StartRule, Stim};

/// A design with its order and its stimulus, which fit.
#[derive(Clone, Copy, Debug)]
pub struct Circuit<'a> {
    pub design: &'a Design,
    pub order: &'a Order,
    pub stim: &'a Stim,
    pub ghost fits: { PartsFit design.now order.now stim.now } by { PartsFit-prop design.now order.now stim.now },
}

impl Circuit<'_> {
    ghost use Rattle.std.specs.Prelude.{◌≡◌, ◌↔◌, ◌<◌, ◌%◌, ◌==◌, IfSome, IsTrue};
    ghost use Rattle.design_circuit.specs.Circuit.{job_in};
    ghost use Rattle.design_circuit.specs.Filling.{IsPlace};
    ghost use Rattle.design_circuit.specs.Fits.{place_at};
    ghost use Rattle.design_circuit.specs.Job.{number_of, places_of};
    ghost use Rattle.design_circuit.specs.Register as spec;

    /// The place of a number.
    pub fn place_of(&self, number: usize) -> Place
        requires within { number < places_of (job_in self.now) }
        ensures { result ≡ place_at (job_in self.now) number }
    {
        let spot = spot_of(self, number);
        Place {
            step: spot.step as u32,
            net: spot.net as u32,
        }
    }

    /// The number of a place.
    pub fn number_of(&self, place: Place) -> usize
        requires within { IsPlace (job_in self.now) place }
        ensures number { result ≡ number_of (job_in self.now) place }
        ensures within { result < places_of (job_in self.now) }
    {
        place.step as usize * width_of(self) + self.order.position(place.net) as usize
    }

    /// Whether it is a place of the job.
    pub fn has_place(&self, place: Place) -> bool
        ensures { IsTrue result ↔ IsPlace (job_in self.now) place }
    {
        let steps = self.stim.times.as_slice().len() * self.stim.rounds as usize;
        (place.step as usize) < steps && (place.net as usize) < width_of(self)
    }

    /// Whether a moment begins at a step.
    pub fn begins_moment(&self, step: usize) -> bool
        ensures { result ≡ (step % (job_in self.now).rounds == 0) }
    {
        step % self.stim.rounds as usize == 0
    }

    /// The step that a later step sees two steps back.
    pub fn two_back(&self, step: usize) -> Option<usize>
        requires { 0 < step }
        ensures step { result ≡ spec.two_back (job_in self.now) step }
        ensures before { IfSome result (λ earlier. earlier < step) }
    {
        if step > 1 {
            return Some(step - 2);
        }
        match self.stim.rules.start {
            StartRule::Cold => None,
            StartRule::Recorded => Some(0),
        }
    }
}
