//! The places of a circuit, as they are written.

ghost use Rattle.std.specs.Prelude.{◌≡◌, ◌%◌, ◌<◌, ◌*◌, ◌≤◌, ◌++◌, ◌∷◌, [], IfOk, OnErr, OnOk, length};
ghost use Rattle.design_circuit.specs.Circuit.{job_in};
ghost use Rattle.design_circuit.specs.Fits.{place_at};
ghost use Rattle.design_circuit.specs.Waveform.{certain, written_at};
ghost use Rattle.law_model.specs.Assignment as assignment;
ghost use Rattle.law_model.specs.Class.{class_of};
ghost use Rattle.law_quiet.specs.Copies.{CopiesAgree};
ghost use Rattle.law_quiet.specs.OfClass.{numbered_value};
ghost use Rattle.wave_bytes.specs.Changed.{AllKeepFrom, AreAnewAt, IsWholeLater};
ghost use Rattle.wave_bytes.specs.Kept.{ValuesAgree};
ghost use Rattle.wave_bytes.specs.View as spec;
ghost use Rattle.wave_bytes.specs.Repeat.{IsRepeatable};
ghost use Rattle.wave_bytes.specs.View.{HasMore, IsNumber, and_one, and_repeated, job, keeps_there, waveform_of};

use crate::anew::Anew;
use crate::byte::{keeps, written_in};
use crate::bytes::{Bytes, class_behind, keep_behind, keep_repeated, push_place};
use crate::front::{Front, first_front, front_after, front_behind, place_there};
use crate::roots::roots_of;
use crate::rows::Rows;
use base_lists::Memory;
use design_cell::Value;
use design_circuit::{Circuit, Place, Written, width_of};
use design_wiring::Wiring;
use law_model::ClassByNumber;
use law_quiet::{ArgumentsByNumber, Asked, argument_places, class_at, kept_class, rule_value};
use std::alloc::Global;
use std::marker::Model;

/// What is written of the places of a circuit, in place order, and the class of the next one. Contracts see the circuit
/// and the list of what is written.
#[derive(Debug, Drop)]
pub struct Waveform<'a> {
    circuit: Circuit<'a>,
    wiring: Wiring,
    rows: Rows,
    /// Whether the class of the next place is found already.
    found: bool,
    /// That class, once it is found.
    next: Option<ClassByNumber>,
    /// Where the next place stands.
    front: Front,
    /// Whether all places before it in its step keep.
    all_keep: bool,
}

impl<'a> Model for Waveform<'a> {
    ghost use Rattle.std.specs.Prelude.{◌≤◌, length, map};
    ghost use Rattle.std.specs.Bool.{OnTrue};
    ghost use Rattle.design_circuit.specs.Circuit.{job_in};
    ghost use Rattle.design_circuit.specs.Job.{places_of};
    ghost use Rattle.law_quiet.specs.OfClass.{AreWiresOf};
    ghost use Rattle.wave_bytes.specs.Byte.{written_of_byte};
    ghost use Rattle.wave_bytes.specs.Front.{StandsAt};
    ghost use Rattle.wave_bytes.specs.Kept.{AreRowsOf, AreTrueBytes, IsNextClass, StepKeeps};
    ghost use Rattle.wave_bytes.specs.View.{WaveformView, waveform_of};

    ghost Value = { WaveformView };

    ghost view = { λ w. waveform_of w.circuit (map written_of_byte w.rows.bytes) };

    ghost invariant = { λ w. record {
      wired : AreWiresOf w.circuit w.wiring;
      within : length w.rows.bytes ≤ places_of (job_in w.circuit);
      rows : AreRowsOf (job_in w.circuit) w.rows;
      kept : AreTrueBytes w.circuit w.rows.bytes;
      next : OnTrue w.found (IsNextClass w.circuit w.rows.bytes w.next);
      front : StandsAt (job_in w.circuit) (length w.rows.bytes) w.front;
      keep : OnTrue w.all_keep (StepKeeps w.rows.bytes w.front.position (length w.rows.bytes));
    } };
}

impl<'a> Waveform<'a> {
    /// One of which nothing is written. Takes 52 bytes for each net, 8 to 24 for each pin. What is written takes 16
    /// to 32 bytes for each place that has not what its net's place a step before has, as each of the first step; 8 to
    /// 16 for that of a copy.
    pub fn new(alloc: Global, circuit: Circuit<'a>) -> Result<Waveform<'a>, Memory>
        ensures { IfOk result (λ w. w ≡ waveform_of circuit.entry []) }
    {
        let wiring = Wiring::of(alloc, circuit.design, circuit.order)?;
        let roots = roots_of(alloc, &circuit)?;
        let rows = Rows::new(alloc, roots, count_steps(&circuit))?;
        let front = first_front(&circuit);
        Ok(Waveform {
            circuit,
            wiring,
            rows,
            found: false,
            next: None,
            front,
            all_keep: true,
        })
    }

    /// The circuit, as it was handed in.
    pub fn circuit(&self) -> Circuit<'a>
        ensures design { result.design.now ≡ self.now.design }
        ensures order { result.order.now ≡ self.now.order }
        ensures stim { result.stim.now ≡ self.now.stim }
        ensures job { job_in result ≡ job self.now }
    {
        self.circuit
    }

    /// How many places are written.
    pub fn count(&self) -> usize
        ensures count { result ≡ length self.now.written }
        ensures agrees { ValuesAgree (job self.now) self.now.written }
    {
        self.rows.count()
    }

    /// What stands at the place of a number.
    pub fn written(&self, number: usize) -> Written
        requires { number < length self.now.written }
        ensures { result ≡ written_at self.now.written number }
    {
        written_in(self.rows.byte(number))
    }

    /// Whether the net of the place of a number keeps there.
    pub fn keeps(&self, number: usize) -> bool
        requires { number < length self.now.written }
        ensures { result ≡ keeps_there (job self.now) self.now.written number }
    {
        keeps(self.rows.byte(number))
    }

    /// The places of a step behind the first that were written anew, in place order. Costs two binary searches.
    pub fn anew_at(&self, step: usize) -> &[Anew]
        requires { IsWholeLater (job self.now) self.now.written step }
        ensures { AreAnewAt (job self.now) self.now.written step result.now }
    {
        let width = width_of(&self.circuit);
        let start = step * width;
        self.rows.anew_between(start, start + width)
    }

    /// The first place from one of a later step on that was written anew, or the end: the net of each place between
    /// keeps there. Costs a binary search.
    pub fn anew_from(&self, number: usize, end: usize) -> usize
        requires later { (job self.now).width ≤ number }
        requires number { number ≤ end }
        requires end { end ≤ length self.now.written }
        ensures from { number ≤ result }
        ensures within { result ≤ end }
        ensures keep { AllKeepFrom (job self.now) self.now.written number result }
    {
        self.rows.anew_from(number, end)
    }

    /// The class of the next place: found here, unless `find_next` did.
    pub fn next_class(&self) -> Option<ClassByNumber>
        ensures { result ≡ spec.next_class (job self.now) self.now.written }
    {
        if self.found {
            return self.next;
        }
        class_behind(
            &self.circuit,
            &self.wiring,
            &self.rows,
            self.front,
            self.all_keep,
        )
    }

    /// Finds the class of the next place, which is kept.
    pub fn find_next(&mut self)
        ensures { self.new ≡ self.old }
    {
        let next = self.next_class();
        self.next = next;
        self.found = true;
    }

    /// The next place, where there is one.
    pub fn place_behind(&self) -> Place
        requires { HasMore self.now }
        ensures { result ≡ place_at (job self.now) (length self.now.written) }
    {
        place_there(&self.circuit, self.front)
    }

    /// Its position in the order.
    pub fn position_behind(&self) -> usize
        requires { HasMore self.now }
        ensures { result ≡ length self.now.written % (job self.now).width }
    {
        self.front.position
    }

    /// The class of the place of a number.
    pub fn class_by_number(&self, number: usize) -> ClassByNumber
        requires { IsNumber self.now number }
        ensures { result ≡ class_of (job self.now) (certain self.now.written) number }
    {
        let bytes = Bytes { rows: &self.rows };
        if number < self.rows.count() {
            kept_class(&self.circuit, &self.wiring, &bytes, number)
        } else {
            let asked = Asked {
                circuit: &self.circuit,
                earlier: &bytes,
                place: number,
                position: self.front.position,
            };
            class_at(&asked, &self.wiring, false)
        }
    }

    /// The argument places of the place of a number, in place order and without doubles.
    pub fn argument_places(&self, number: usize) -> ArgumentsByNumber
        requires { IsNumber self.now number }
        ensures { result ≡ assignment.argument_places (job self.now) (certain self.now.written) number }
    {
        let bytes = Bytes { rows: &self.rows };
        argument_places(&self.circuit, &bytes, number)
    }

    /// What the rule of the place of a number gives where bit i of `bits` is the bit of its argument place i.
    pub fn rule_value(&self, number: usize, bits: u16) -> Value
        requires { IsNumber self.now number }
        ensures { result ≡ numbered_value (job self.now) (certain self.now.written) number bits }
    {
        let bytes = Bytes { rows: &self.rows };
        rule_value(&self.circuit, &bytes, number, bits)
    }

    /// Writes the next place. Takes 16 to 32 bytes where it has not what its net's place a step before has, 8 to 16 of
    /// these where it is a copy's.
    pub fn push(&mut self, written: Written) -> Result<(), Memory>
        requires next { HasMore self.old }
        requires agrees { ValuesAgree (job self.old) (self.old.written ++ written ∷ []) }
        requires copies { CopiesAgree (job self.old) (self.old.written ++ written ∷ []) }
        ensures ok { OnOk result (self.new ≡ and_one self.old written) }
        ensures err { OnErr result (self.new ≡ self.old) }
    {
        let circuit = self.circuit;
        let next = self.next_class();
        let front = front_behind(&circuit, self.front, self.rows.count());
        push_place(&circuit, &mut self.rows, next, written)?;
        let all_keep = keep_behind(&self.rows, front, self.all_keep);
        self.found = false;
        self.front = front;
        self.all_keep = all_keep;
        Ok(())
    }

    /// Writes so many places, each as its net's place a step before stands.
    pub fn repeat(&mut self, many: usize)
        requires { IsRepeatable self.old many }
        ensures { self.new ≡ and_repeated self.old many }
    {
        let circuit = self.circuit;
        let front = front_after(&circuit, self.front, self.rows.count(), many);
        self.rows.repeat(many);
        let all_keep = keep_repeated(front, self.all_keep);
        self.found = false;
        self.front = front;
        self.all_keep = all_keep;
    }
}

/// How many steps there are.
fn count_steps(circuit: &Circuit<'_>) -> usize
    ensures { result ≡ (job_in circuit.now).moments * (job_in circuit.now).rounds }
{
    circuit.stim.times.as_slice().len() * circuit.stim.rounds as usize
}
