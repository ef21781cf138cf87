//! A place whose class is asked, as it is passed on, and its argument places that aren't certain.

ghost use Rattle.std.specs.Prelude.{◌≡◌, ◌%◌, ◌<◌, ◌≤◌, length};
ghost use Rattle.design_circuit.specs.Circuit.{job_in};
ghost use Rattle.design_circuit.specs.Job.{places_of};
ghost use Rattle.wave_class.specs.Arguments.{uncertain_places};
ghost use Rattle.wave_class.specs.Facts.{AgreeBefore, AgreeBefore-prop, AreFacts, AreFacts-prop};

use crate::earlier::Earlier;
use design_circuit::Circuit;

/// A place whose class is asked, its position in the order, and what is known of the places before it.
#[derive(Drop)]
pub struct Asked<'a, E: Earlier> {
    pub circuit: &'a Circuit<'a>,
    pub earlier: &'a E,
    pub place: usize,
    pub position: usize,
    pub ghost within: { place < places_of (job_in circuit.now) },
    pub ghost stands_at: { position ≡ place % (job_in circuit.now).width },
    pub ghost known: { place ≤ E.count earlier.now },
    pub ghost facts: { let j = job_in circuit.now in
        AreFacts j (E.reads earlier.now) (E.facts earlier.now) place } by { AreFacts-prop _ _ _ _ },
    pub ghost agrees: { AgreeBefore (job_in circuit.now) (E.reads earlier.now) place } by { AgreeBefore-prop _ _ _ },
}

/// The same with its argument places that aren't certain, whose assignments are tried.
#[derive(Drop)]
pub struct Uncertain<'a, E: Earlier> {
    pub asked: &'a Asked<'a, E>,
    pub places: &'a [usize],
    pub ghost few: { length places.now ≤ 13 },
    pub ghost all: { let asked = asked.now in
        places.now ≡ uncertain_places (job_in asked.circuit.now) (E.reads asked.earlier.now) asked.place },
}
