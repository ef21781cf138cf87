//! The ends of the places of a step, kept from step to step by what changes.

ghost use Rattle.std.specs.Prelude.{◌≡◌, ℕ, ◌+◌, ◌-◌, ◌*◌, ◌<◌, ◌≤◌, ◌^◌, IfOk, IsTrue, length, slice_set};
ghost use Rattle.design_circuit.specs.Row.{AreWritten, IsBlankAt};
ghost use Rattle.report_bits.specs.Ends as spec;
ghost use Rattle.report_bits.specs.Ends.{AreBrought, AreEndsAt, IsShownIn, IsWrittenIn, counts_of_ends};
ghost use Rattle.report_bits.specs.Finished.{AreRowsAt, IsStillAt};

use crate::counts::Counts;
use crate::rows::Rows;
use base_ledger::Change;
use base_lists::Memory;
use design_cell::Value;
use design_circuit::{History, Mark, width_of};
use std::alloc::Global;
use wave_proved::Wave;

/// Which end a place has.
#[derive(Clone, Copy, PartialEq, Eq)]
pub enum End {
    /// Certain, and the history knows it.
    Known,
    /// Certain, and the history doesn't know it.
    Repaired,
    Unknown,
    Undecided,
}

/// The end at each position of a step, and how many have which.
#[derive(Drop)]
pub struct Ends {
    ends: Vec<End>,
    counts: Counts,
    ghost counted: { counts ≡ counts_of_ends ends.items },
    ghost few: { length ends.items ≤ 2 ^ 20 },
}

impl Ends {
    /// So many, each unknown. Takes a byte for each.
    pub fn unknown(alloc: Global, count: usize) -> Result<Ends, Memory>
        requires { count ≤ 2 ^ 20 }
        ensures { IfOk result (λ ends. length ends.ends.items ≡ count) }
    {
        let ends = vec![in alloc; End::Unknown; count]?;
        let counts = Counts {
            known: 0,
            repaired: 0,
            unknown: count as u64,
            undecided: 0,
        };
        Ok(Ends { ends, counts })
    }

    /// How many have which.
    pub fn counts(&self) -> Counts
        ensures { result ≡ counts_of_ends self.now.ends.items }
    {
        self.counts
    }

    /// Puts an end at a position.
    fn put(&mut self, position: usize, end: End)
        requires { position < length self.old.ends.items }
        ensures { self.new.ends.items ≡ slice_set self.old.ends.items position end }
    {
        let was = self.ends[position];
        self.counts.take(was);
        self.counts.gain(end);
        self.ends[position] = end;
    }

    /// Goes on to the step at which rows stand, from the one before it if there is one. Costs what the wave and the
    /// history wrote anew at it; all positions at the first step, and where the history has nothing more.
    pub fn bring(&mut self, wave: &Wave<'_>, rows: &Rows<'_, '_>, step: u32)
        requires whole { (step + 1) * length wave.now.design.nets ≤ length wave.now.written }
        requires rows { AreRowsAt wave.now step rows.now }
        requires long { length self.old.ends.items ≡ length wave.now.design.nets }
        requires before { 0 < step → AreEndsAt wave.now (step - 1) self.old.ends.items }
        ensures { AreEndsAt wave.now step self.new.ends.items }
    {
        if step == 0 {
            return self.put_all(wave, rows, step);
        }
        self.put_shown(wave, rows, step);
        self.put_anew(wave, rows, step);
    }

    /// Puts the ends of a step.
    fn put_all(&mut self, wave: &Wave<'_>, rows: &Rows<'_, '_>, step: u32)
        requires whole { (step + 1) * length wave.now.design.nets ≤ length wave.now.written }
        requires rows { AreRowsAt wave.now step rows.now }
        requires long { length self.old.ends.items ≡ length wave.now.design.nets }
        ensures { AreEndsAt wave.now step self.new.ends.items }
    {
        let nets = width_of(&wave.circuit());
        'positions: for position in 0..nets {
            self.put_end(wave, rows, step, position);
        }
    }

    /// Puts the ends at whose places the history may show something else than one step before.
    fn put_shown(&mut self, wave: &Wave<'_>, rows: &Rows<'_, '_>, step: u32)
        requires later { 0 < step }
        requires whole { (step + 1) * length wave.now.design.nets ≤ length wave.now.written }
        requires rows { AreRowsAt wave.now step rows.now }
        requires long { length self.old.ends.items ≡ length wave.now.design.nets }
        ensures brought { AreBrought wave.now step self.old.ends.items self.new.ends.items }
        ensures shown { (position : ℕ) → position < length wave.now.design.nets
            → IsShownIn wave.now step self.new.ends.items position }
    {
        match wave.replayed().written(step as usize) {
            Some(changes) => self.put_changes(wave, rows, step, changes),
            None => self.put_blank(wave, rows, step),
        }
    }

    /// Puts the ends of a step at which nothing is written any more, unless that was so a step before.
    fn put_blank(&mut self, wave: &Wave<'_>, rows: &Rows<'_, '_>, step: u32)
        requires later { 0 < step }
        requires whole { (step + 1) * length wave.now.design.nets ≤ length wave.now.written }
        requires rows { AreRowsAt wave.now step rows.now }
        requires long { length self.old.ends.items ≡ length wave.now.design.nets }
        ensures brought { AreBrought wave.now step self.old.ends.items self.new.ends.items }
        ensures shown { (position : ℕ) → position < length wave.now.design.nets
            → IsShownIn wave.now step self.new.ends.items position }
    {
        // With it comes the fact that the history has the places of the wave.
        wave.recall();
        if !is_still(wave.replayed(), step as usize) {
            self.put_all(wave, rows, step);
        }
    }

    /// Puts the ends of the nets that the history wrote at a step.
    fn put_changes(&mut self, wave: &Wave<'_>, rows: &Rows<'_, '_>, step: u32, changes: &[Change])
        requires whole { (step + 1) * length wave.now.design.nets ≤ length wave.now.written }
        requires rows { AreRowsAt wave.now step rows.now }
        requires long { length self.old.ends.items ≡ length wave.now.design.nets }
        requires changes { AreWritten wave.now.history step changes.now }
        ensures brought { AreBrought wave.now step self.old.ends.items self.new.ends.items }
        ensures shown { (position : ℕ) → position < length wave.now.design.nets
            → IsShownIn wave.now step self.new.ends.items position }
    {
        let circuit = wave.circuit();
        'changes: for change in changes {
            let position = circuit.order.position(change.position() as u32);
            self.put_end(wave, rows, step, position as usize);
        }
    }

    /// Puts the ends of the places that the wave wrote anew at a step.
    fn put_anew(&mut self, wave: &Wave<'_>, rows: &Rows<'_, '_>, step: u32)
        requires later { 0 < step }
        requires whole { (step + 1) * length wave.now.design.nets ≤ length wave.now.written }
        requires rows { AreRowsAt wave.now step rows.now }
        requires long { length self.old.ends.items ≡ length wave.now.design.nets }
        ensures brought { AreBrought wave.now step self.old.ends.items self.new.ends.items }
        ensures written { (position : ℕ) → position < length wave.now.design.nets
            → IsWrittenIn wave.now step self.new.ends.items position }
    {
        let first = step as usize * width_of(&wave.circuit());
        let places = wave.anew_at(step as usize);
        'places: for anew in places {
            self.put_end(wave, rows, step, anew.number() - first);
        }
    }

    /// Puts the end at a position of a step.
    fn put_end(&mut self, wave: &Wave<'_>, rows: &Rows<'_, '_>, step: u32, position: usize)
        requires whole { (step + 1) * length wave.now.design.nets ≤ length wave.now.written }
        requires rows { AreRowsAt wave.now step rows.now }
        requires long { length self.old.ends.items ≡ length wave.now.design.nets }
        requires position { position < length wave.now.design.nets }
        ensures { self.new.ends.items
            ≡ slice_set self.old.ends.items position (spec.end_in wave.now step position) }
    {
        let net = wave.circuit().order.net(position as u32);
        let end = end_of(rows.wave.written(position).mark, rows.replayed.shown(net));
        self.put(position, end);
    }
}

/// Whether each place of a step is known to have what its net has a step before.
pub fn is_still(history: &History, step: usize) -> bool
    requires { 0 < step }
    ensures { IsTrue result → IsStillAt history.now step }
{
    step > 1 && is_blank(history, step) && is_blank(history, step - 1)
}

/// Whether each place of a step is known to be blank.
fn is_blank(history: &History, step: usize) -> bool
    requires { 0 < step }
    ensures { IsTrue result → IsBlankAt history.now step }
{
    history.written(step).is_none()
}

/// The end of a place with this mark, at which the history shows this value.
pub fn end_of(mark: Mark, shown: Value) -> End
    ensures { result ≡ spec.end_of mark shown }
{
    match (mark, shown.is_known()) {
        (Mark::Certain, true) => End::Known,
        (Mark::Certain, false) => End::Repaired,
        (Mark::Unknown, _) => End::Unknown,
        (Mark::Undecided, _) => End::Undecided,
    }
}
