//! A waveform that grows by one place at a time.

ghost use Rattle.std.specs.Prelude.{◌≡◌, ◌<◌, ◌≤◌, ◌++◌, ◌∷◌, [], IfOk, IfErr, IsTrue, OnErr, OnOk, length, map};
ghost use Rattle.design_cell.specs.declared.value.Value.{Value as AnyValue};
ghost use Rattle.design_circuit.specs.Circuit.{job_in};
ghost use Rattle.design_circuit.specs.Fits.{place_at};
ghost use Rattle.design_circuit.specs.Handed.{IsHandedIn};
ghost use Rattle.design_circuit.specs.Job.{number_of, places_of};
ghost use Rattle.design_circuit.specs.Waveform.{written_at};
ghost use Rattle.law_model.specs.Class.{class_seen};
ghost use Rattle.law_model.specs.Growth.{NextHolds};
ghost use Rattle.law_model.specs.Sound.{Sound};
ghost use Rattle.law_model.specs.Yields.{Yields};
ghost use Rattle.wave_proved.specs.Advance.{GoesOn, with_written};
ghost use Rattle.wave_proved.specs.Contents.{FromWithin, AreLimits, IsReached, IsWave, IsWritten, arguments_in};
ghost use Rattle.wave_proved.specs.Contents.{class_in};
ghost use Rattle.wave_proved.specs.Contents.{job, next_number, next_place, next_seen, nothing_of, rule_in, shown_in};
ghost use Rattle.wave_proved.specs.Contents.{written_of};
ghost use Rattle.wave_due.specs.OfQuiet.{CopiesAgree};
ghost use Rattle.wave_due.specs.OfWaveBytes.{ValuesAgree};
ghost use Rattle.wave_due.specs.OfWaveBytes as view;
ghost use Rattle.wave_due.specs.OfWaveBytes.{HasMore, and_one, and_repeated, keeps_there, next_class};
ghost use Rattle.wave_due.specs.Walk.{IsHeldFor, IsRunOf, IsWalkOf};
ghost use Rattle.wave_proved.specs.Token.{HasNext, IsLineNext, LineAgrees, LineHolds, with_line, written_by_line};

use crate::arguments::{Arguments, places_of_numbers};
use base_lists::Memory;
use design_cell::Value;
use design_circuit::{Circuit, Design, History, Mark, Order, Place, Stim, Written, count_places};
use law_model::{Class, ClassByNumber, Limits, Line};
use std::alloc::Global;
use std::marker::Model;
use wave_due::{Walk, Waveform};

/// What is known of the places of a circuit so far, in place order, and the lines that say why.
#[derive(Debug, Drop)]
pub struct Wave<'a> {
    /// In a box, since a wave is handed on at each place.
    parts: Box<Parts<'a>>,
}

/// What a wave is made of.
#[derive(Debug, Drop)]
struct Parts<'a> {
    waveform: Waveform<'a>,
    /// What is due ahead, and the history, read at the step of the next place.
    walk: Walk<'a>,
    limits: Limits,
    lines: Vec<Line>,
}

impl<'a> Model for Wave<'a> {
    ghost use Rattle.wave_proved.specs.Contents.{Contents, IsWaveAt, contents_of};

    ghost Value = { Contents };

    ghost view = { λ w. contents_of w.parts.value.waveform w.parts.value.walk.replayed.history w.parts.value.limits
        w.parts.value.lines.items };

    ghost invariant = { λ w. IsWaveAt (contents_of w.parts.value.waveform w.parts.value.walk.replayed.history
        w.parts.value.limits w.parts.value.lines.items) w.parts.value.walk };
}

impl<'a> Wave<'a> {
    /// A wave of which nothing is written. `limits` say how its places are decided. Takes some 92 bytes for each net, 4
    /// more for one on which the recording acts, 12 to 28 for each pin, and on the way 16 more for each pin; what is
    /// written takes 16 to 32 for each place that has something else than its net's a step before, 8 to 16 for that of
    /// a copy.
    pub fn new(
        alloc: Global,
        circuit: Circuit<'a>,
        replayed: &'a History,
        limits: Limits,
    ) -> Result<Wave<'a>, Memory>
        requires handed { IsHandedIn (job_in circuit) replayed.now }
        requires limits { AreLimits limits }
        ensures { IfOk result (λ w. w ≡ nothing_of circuit.entry replayed.now limits) }
    {
        let waveform = Waveform::new(alloc, circuit)?;
        let walk = Walk::new(alloc, &circuit, replayed)?;
        let parts = Parts {
            waveform,
            walk,
            limits,
            lines: Vec::new(alloc),
        };
        Ok(Wave {
            parts: Box::new(alloc, parts)?,
        })
    }

    /// The design, as it was handed in.
    pub fn design(&self) -> &'a Design
        ensures { result.now ≡ self.now.design }
    {
        self.parts.waveform.circuit().design
    }

    /// The order, as it was handed in.
    pub fn order(&self) -> &'a Order
        ensures { result.now ≡ self.now.order }
    {
        self.parts.waveform.circuit().order
    }

    /// The stimulus, as it was handed in.
    pub fn stim(&self) -> &'a Stim
        ensures { result.now ≡ self.now.stim }
    {
        self.parts.waveform.circuit().stim
    }

    /// The history, as it was handed in.
    pub fn replayed(&self) -> &'a History
        ensures { result.now ≡ self.now.history }
    {
        self.parts.walk.replayed.history()
    }

    /// The limits of decisions, as they were handed in.
    pub fn limits(&self) -> Limits
        ensures { result ≡ self.now.limits }
    {
        self.parts.limits
    }

    /// The class of the next place.
    pub fn class(&self) -> Class
        ensures { result ≡ next_seen self.now }
    {
        match self.parts.waveform.next_class() {
            None => Class::Done,
            Some(class) => seen_class(&self.circuit(), class),
        }
    }

    /// The next place, if there is one.
    pub fn next_place(&self) -> Option<Place>
        ensures { result ≡ next_place (job self.now) self.now.written }
    {
        if self.count() < count_places(&self.circuit()) {
            Some(self.place_behind())
        } else {
            None
        }
    }

    /// The class of a place that is written, or of the next one.
    pub fn class_at(&self, place: Place) -> Class
        requires { IsReached self.now place }
        ensures { result ≡ class_seen (job self.now) (class_in self.now (number_of (job self.now) place)) }
    {
        let circuit = self.circuit();
        let number = circuit.number_of(place);
        seen_class(&circuit, self.class_by_number(number))
    }

    /// The class of the place of a number, of one that is written or of the next one.
    pub fn class_by_number(&self, number: usize) -> ClassByNumber
        requires reached { number ≤ length self.now.written }
        requires within { number < places_of (job self.now) }
        ensures { result ≡ class_in self.now number }
    {
        self.parts.waveform.class_by_number(number)
    }

    /// The argument places of a place that is written, or of the next one, in place order and without doubles.
    pub fn arguments(&self, place: Place) -> Arguments
        requires { IsReached self.now place }
        ensures { result ≡ map (place_at (job self.now)) (arguments_in self.now (number_of (job self.now) place)) }
    {
        let circuit = self.circuit();
        let number = circuit.number_of(place);
        let numbers = self.parts.waveform.argument_places(number);
        places_of_numbers(&circuit, numbers.as_slice())
    }

    /// What the rule of a place that is written, or of the next one, gives where bit i of a number is the bit of its
    /// argument place i.
    pub fn rule_value(&self, place: Place, bits: u16) -> Value
        requires { IsReached self.now place }
        ensures { result ≡ rule_in self.now (number_of (job self.now) place) bits }
    {
        let number = self.circuit().number_of(place);
        self.parts.waveform.rule_value(number, bits)
    }

    /// What the waveform shows at a place.
    pub fn value(&self, place: Place) -> Value
        requires { IsWritten self.now place }
        ensures { result ≡ (written_of self.now place).value }
    {
        self.written(self.circuit().number_of(place)).value
    }

    /// What is known of a place.
    pub fn mark(&self, place: Place) -> Mark
        requires { IsWritten self.now place }
        ensures { result ≡ (written_of self.now place).mark }
    {
        self.written(self.circuit().number_of(place)).mark
    }

    /// The lines, one for each Line place that is written, in place order. They yield the waveform, which is sound.
    pub fn lines(&self) -> &[Line]
        ensures lines { result.now ≡ self.now.lines }
        ensures yields { Yields (job self.now) self.now.limits (shown_in self.now) self.now.written result.now }
        ensures sound { Sound (job self.now) self.now.limits (shown_in self.now) self.now.written result.now }
    {
        self.parts.lines.as_slice()
    }

    /// The design with its order and its stimulus.
    pub fn circuit(&self) -> Circuit<'a>
        ensures job { job_in result ≡ job self.now }
        ensures wave { IsWave self.now }
    {
        self.parts.waveform.circuit()
    }

    /// What is always true of a wave. Does nothing.
    pub fn recall(&self)
        ensures { IsWave self.now }
    {
        let _ = &self.parts;
    }

    /// How many places are written.
    pub fn count(&self) -> usize
        ensures count { result ≡ length self.now.written }
        ensures wave { IsWave self.now }
    {
        self.parts.waveform.count()
    }

    /// What stands at the place of a number: its value and its mark.
    pub fn written(&self, number: usize) -> Written
        requires { number < length self.now.written }
        ensures { result ≡ written_at self.now.written number }
    {
        self.parts.waveform.written(number)
    }

    /// What is written of the places.
    pub(crate) fn waveform(&self) -> &Waveform<'a>
        ensures job { view.job result.now ≡ job self.now }
        ensures written { result.now.written ≡ self.now.written }
    {
        &self.parts.waveform
    }

    /// Whether the net of the place of a number keeps there.
    pub(crate) fn keeps(&self, number: usize) -> bool
        requires { number < length self.now.written }
        ensures { result ≡ keeps_there (job self.now) self.now.written number }
    {
        self.parts.waveform.keeps(number)
    }

    /// The class of the next place, by number.
    pub(crate) fn next_class(&self) -> Option<ClassByNumber>
        ensures class { result ≡ next_class (job self.now) self.now.written }
        ensures wave { IsWave self.now }
    {
        self.parts.waveform.next_class()
    }

    /// What the history shows at the next place.
    pub(crate) fn shown_next(&self) -> Value
        requires { HasNext self.now }
        ensures shown { result ≡ shown_in self.now (next_number self.now) }
        ensures wave { IsWave self.now }
    {
        self.parts.walk.replayed.shown(self.place_behind().net)
    }

    /// The next place, where there is one.
    pub(crate) fn place_behind(&self) -> Place
        requires { HasNext self.now }
        ensures { result ≡ place_at (job self.now) (next_number self.now) }
    {
        self.parts.waveform.place_behind()
    }

    /// Gives the wave up for its lines.
    pub(crate) fn into_lines(self) -> Vec<Line>
        ensures { result.items ≡ self.entry.lines }
    {
        let Wave { parts } = self;
        let Parts {
            waveform: _,
            walk: _,
            limits: _,
            lines,
        } = Box::into_inner(parts);
        lines
    }

    /// Writes the next place without a line.
    pub(crate) fn append(mut self, written: Written) -> Result<Wave<'a>, Memory>
        requires next { NextHolds (job self) self.limits (shown_in self) self.written written [] }
        ensures { IfOk result (λ w. w ≡ with_written self.entry written) }
    {
        self.parts.push(written)?;
        Ok(self)
    }

    /// Finds the class of the next place, which is kept.
    pub(crate) fn find_next(mut self) -> Wave<'a>
        ensures { result ≡ self.entry }
    {
        self.parts.waveform.find_next();
        self
    }

    /// Writes the places up to the next one that is due in the step, each as its net's place a step before; whether
    /// there were any.
    pub(crate) fn skip_run(mut self) -> (Wave<'a>, bool)
        requires { HasNext self }
        ensures goes { GoesOn self.entry result.0 }
        ensures more { IsTrue result.1 → length self.entry.written < length result.0.written }
    {
        let many = self.parts.skip();
        (self, many > 0)
    }

    /// Writes the next place, a Line place, and appends its line.
    pub(crate) fn append_line(mut self, written: Written, line: Line) -> Result<Wave<'a>, Memory>
        requires class { IsLineNext self }
        requires line { LineHolds self line }
        requires written { written ≡ written_by_line self line }
        requires agrees { LineAgrees self line }
        ensures { IfOk result (λ w. w ≡ with_line self.entry line) }
    {
        self.parts.push_line(written, line)?;
        Ok(self)
    }
}

impl<'a> Parts<'a> {
    /// Writes the next place.
    fn push(&mut self, written: Written) -> Result<(), Memory>
        requires next { HasMore self.old.waveform }
        requires agrees { ValuesAgree (view.job self.old.waveform) (self.old.waveform.written ++ written ∷ []) }
        requires copies { CopiesAgree (view.job self.old.waveform) (self.old.waveform.written ++ written ∷ []) }
        requires walk { IsWalkOf self.old.waveform self.old.walk }
        ensures waveform { OnOk result (self.new.waveform ≡ and_one self.old.waveform written) }
        ensures walk { OnOk result (IsWalkOf self.new.waveform self.new.walk) }
        ensures history { OnOk result (self.new.walk.replayed.history ≡ self.old.walk.replayed.history) }
        ensures err { OnErr result (self.new ≡ self.old) }
        ensures limits { self.new.limits ≡ self.old.limits }
        ensures lines { self.new.lines ≡ self.old.lines }
    {
        self.walk.write(&mut self.waveform, written)
    }

    /// Writes the next place, and appends a line.
    fn push_line(&mut self, written: Written, line: Line) -> Result<(), Memory>
        requires next { HasMore self.old.waveform }
        requires agrees { ValuesAgree (view.job self.old.waveform) (self.old.waveform.written ++ written ∷ []) }
        requires copies { CopiesAgree (view.job self.old.waveform) (self.old.waveform.written ++ written ∷ []) }
        requires walk { IsWalkOf self.old.waveform self.old.walk }
        ensures waveform { OnOk result (self.new.waveform ≡ and_one self.old.waveform written) }
        ensures walk { OnOk result (IsWalkOf self.new.waveform self.new.walk) }
        ensures history { OnOk result (self.new.walk.replayed.history ≡ self.old.walk.replayed.history) }
        ensures lines { OnOk result (self.new.lines.items ≡ self.old.lines.items ++ line ∷ []) }
        ensures limits { self.new.limits ≡ self.old.limits }
    {
        self.push(written)?;
        self.lines.push(line)?;
        Ok(())
    }

    /// Writes the places up to the next one that is due in the step, each as its net's place a step before; says how
    /// many.
    fn skip(&mut self) -> usize
        requires next { HasMore self.old.waveform }
        requires held { IsHeldFor self.old.waveform self.old.walk }
        requires walk { IsWalkOf self.old.waveform self.old.walk }
        ensures run { IsRunOf self.old.waveform self.old.walk result }
        ensures waveform { self.new.waveform ≡ and_repeated self.old.waveform result }
        ensures walk { IsWalkOf self.new.waveform self.new.walk }
        ensures history { self.new.walk.replayed.history ≡ self.old.walk.replayed.history }
        ensures limits { self.new.limits ≡ self.old.limits }
        ensures lines { self.new.lines ≡ self.old.lines }
    {
        self.walk.skip(&mut self.waveform)
    }
}

/// A class as callers see it.
fn seen_class(circuit: &Circuit<'_>, class: ClassByNumber) -> Class
    requires within { FromWithin (places_of (job_in circuit.now)) class }
    ensures { result ≡ class_seen (job_in circuit.now) class }
{
    match class {
        ClassByNumber::Local(bit) => Class::Local(bit),
        ClassByNumber::Free => Class::Free,
        ClassByNumber::Carried(from, inverted) => Class::Carried(circuit.place_of(from), inverted),
        ClassByNumber::Line => Class::Line,
    }
}
