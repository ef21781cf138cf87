//! A walk over the places of a circuit by what is due.
//!
//! A place is due where something that its rule reads may have moved: the net of an argument doesn't keep, or that of a
//! pin that a register looks back at one step before; an input is recorded otherwise; its own place a step before isn't
//! calm; or the history shows something else. Any other place is written as its net's place a step before.

ghost use Rattle.std.specs.Prelude.{◌≡◌, ℕ, ◌*◌, ◌+◌, ◌%◌, ◌<◌, ◌≤◌, ◌++◌, ◌∷◌, [], true, false, IfOk, IsTrue, OnErr};
ghost use Rattle.std.specs.Prelude.{OnOk, length};
ghost use Rattle.design_circuit.specs.Circuit.{job_in};
ghost use Rattle.design_circuit.specs.Handed.{HasPlaces, shown_of};
ghost use Rattle.design_circuit.specs.Fits.{place_at};
ghost use Rattle.replay_fans.specs.Marks.{OnlyMore};
ghost use Rattle.replay_fans.specs.Readings.{AreFans};
ghost use Rattle.wave_bytes.specs.OfQuiet.{CopiesAgree, IsRun, tells_calm_of};
ghost use Rattle.replay_due.specs.Due.{HasRoom, HasRoomFor, is_due};
ghost use Rattle.replay_due.specs.Readers.{readers_of};
ghost use Rattle.wave_bytes.specs.Kept.{ValuesAgree};
ghost use Rattle.wave_bytes.specs.View as view;
ghost use Rattle.wave_bytes.specs.View.{HasMore, and_one, and_repeated};
ghost use Rattle.wave_due.specs.Walk.{AreReadersIn, HasTables, IsHeld, IsHeldFor, IsRunOf, IsVisited, IsWalk};
ghost use Rattle.wave_due.specs.Walk.{IsWalkAt, IsWalkOf, TellsCalm, shown_by};

use crate::begin::mark_history;
use crate::calm::{tells_by_class, tells_calm};
use crate::sources::{mark_sources, sources_of};
use base_lists::Memory;
use design_circuit::{
    Circuit, History, HistoryRow, Place, Written, count_places, driver_at, width_of,
};
use law_model::ClassByNumber;
use replay_fans::{Fans, Waiting, mark_readers};
use std::alloc::Global;
use wave_bytes::Waveform;

/// Who reads which net, on which positions the recording acts, which positions are due in the step and in the next one,
/// and the history, read at the step.
#[derive(Debug, Drop)]
pub struct Walk<'a> {
    pub fans: Fans,
    pub sources: Vec<u32>,
    pub waiting: Waiting,
    pub replayed: HistoryRow<'a>,
}

impl<'a> Walk<'a> {
    /// That of a circuit of which nothing is written. Takes 18 bytes for each net, 4 more for one on which the
    /// recording acts, and 4 for each pin; on the way 16 more for each pin.
    pub fn new(
        alloc: Global,
        circuit: &Circuit<'_>,
        history: &'a History,
    ) -> Result<Walk<'a>, Memory>
        requires places { HasPlaces (job_in circuit.now) history.now }
        ensures walk { IfOk result (IsWalk (job_in circuit.now) []) }
        ensures history { IfOk result (λ walk. walk.replayed.history ≡ history.now) }
    {
        let fans = Fans::of(alloc, circuit)?;
        let sources = sources_of(alloc, circuit)?;
        let waiting = Waiting::all(alloc, width_of(circuit))?;
        let replayed = HistoryRow::first(alloc, history)?;
        Ok(Walk {
            fans,
            sources,
            waiting,
            replayed,
        })
    }

    /// Writes the next place of a waveform, and marks what is due then.
    pub fn write(&mut self, waveform: &mut Waveform<'_>, written: Written) -> Result<(), Memory>
        requires next { HasMore waveform.old }
        requires agrees { ValuesAgree (view.job waveform.old) (waveform.old.written ++ written ∷ []) }
        requires copies { CopiesAgree (view.job waveform.old) (waveform.old.written ++ written ∷ []) }
        requires walk { IsWalkOf waveform.old self.old }
        ensures waveform { OnOk result (waveform.new ≡ and_one waveform.old written) }
        ensures walk { OnOk result (IsWalkOf waveform.new self.new) }
        ensures history { OnOk result (self.new.replayed.history ≡ self.old.replayed.history) }

        ensures unwritten { OnErr result (waveform.new ≡ waveform.old) }
        ensures still { OnErr result (self.new ≡ self.old) }
    {
        let circuit = waveform.circuit();
        let place = waveform.place_behind();
        let position = waveform.position_behind();
        let calm = tells_next(waveform, place);
        waveform.push(written)?;
        let keeps = waveform.keeps(waveform.count() - 1);
        self.visit(&circuit, position, place.net, keeps, calm);
        self.settle(waveform, position + 1);
        Ok(())
    }

    /// Passes over the places of the step up to the next one that is due, each of which is written as its net's place a
    /// step before; says how many.
    pub fn skip(&mut self, waveform: &mut Waveform<'_>) -> usize
        requires next { HasMore waveform.old }
        requires held { IsHeldFor waveform.old self.old }
        requires walk { IsWalkOf waveform.old self.old }
        ensures run { IsRunOf waveform.old self.old result }
        ensures waveform { waveform.new ≡ and_repeated waveform.old result }
        ensures walk { IsWalkOf waveform.new self.new }
        ensures history { self.new.replayed.history ≡ self.old.replayed.history }
    {
        let position = waveform.position_behind();
        let end = self.next_due(waveform);
        let many = end - position;
        repeat(waveform, &self.replayed, many);
        self.settle(waveform, end);
        many
    }

    /// The next position of the step that is due, or its end.
    fn next_due(&self, waveform: &Waveform<'_>) -> usize
        requires next { HasMore waveform.now }
        requires walk { IsWalkOf waveform.now self.now }
        ensures forward { length waveform.now.written % (view.job waveform.now).width ≤ result }
        ensures within { result ≤ (view.job waveform.now).width }
        ensures run { (many : ℕ) → length waveform.now.written % (view.job waveform.now).width + many ≡ result →
            IsRunOf waveform.now self.now many }
    {
        let width = width_of(&waveform.circuit());
        let next = self.waiting.due.first_from(waveform.position_behind());
        if next < width { next } else { width }
    }

    /// The net at a position is visited: what reads it becomes due, unless it keeps.
    fn visit(&mut self, circuit: &Circuit<'_>, position: usize, net: u32, keeps: bool, calm: bool)
        requires tables { HasTables (job_in circuit.now) self.old }
        requires position { position < (job_in circuit.now).width }
        requires net { net < (job_in circuit.now).width }
        ensures { IsVisited net position keeps calm self.old self.new }
    {
        mark_moved(circuit, &self.fans, net, keeps, &mut self.waiting);
        mark_restless(position, calm, &mut self.waiting);
    }

    /// Goes on to the next step, where the places of a step are all written and there is one.
    fn settle(&mut self, waveform: &Waveform<'_>, position: usize)
        requires tables { HasTables (view.job waveform.now) self.old }
        requires here { IsWalkAt (view.job waveform.now) (shown_by (view.job waveform.now) self.old)
            waveform.now.written self.old self.old.replayed.step position }
        requires position { position ≤ (view.job waveform.now).width }
        ensures walk { IsWalkOf waveform.now self.new }
        ensures history { self.new.replayed.history ≡ self.old.replayed.history }
    {
        let circuit = waveform.circuit();
        if position < width_of(&circuit) {
            return;
        }
        if waveform.count() < count_places(&circuit) {
            self.begin(waveform);
        }
    }

    /// Begins the step behind one whose places are all written.
    fn begin(&mut self, waveform: &Waveform<'_>)
        requires next { HasMore waveform.now }
        requires agrees { ValuesAgree (view.job waveform.now) waveform.now.written }
        requires tables { HasTables (view.job waveform.now) self.old }
        requires here { IsWalkAt (view.job waveform.now) (shown_by (view.job waveform.now) self.old)
            waveform.now.written self.old self.old.replayed.step (view.job waveform.now).width }
        ensures walk { IsWalkOf waveform.now self.new }
        ensures history { self.new.replayed.history ≡ self.old.replayed.history }
    {
        let circuit = waveform.circuit();
        self.replayed.next_step();
        let step = self.replayed.step();
        self.waiting.turn();
        let sources = self.sources.as_slice();
        mark_sources(&circuit, sources, step, &mut self.waiting.due);
        let history = self.replayed.history();
        mark_history(&circuit, history, step, &mut self.waiting.due);
    }
}

/// Writes so many places, none of which is due, each as its net's place a step before.
fn repeat(waveform: &mut Waveform<'_>, replayed: &HistoryRow<'_>, many: usize)
    requires held { IsHeld (view.job waveform.old) (shown_of (view.job waveform.old) replayed.now.history)
        waveform.old.written }
    requires run { IsRun (view.job waveform.old) (shown_of (view.job waveform.old) replayed.now.history)
        waveform.old.written many }
    ensures { waveform.new ≡ and_repeated waveform.old many }
{
    if many == 0 {
        return;
    }
    waveform.repeat(many);
}

/// Whether the class of the next place tells that it is calm.
fn tells_next(waveform: &Waveform<'_>, place: Place) -> bool
    requires next { HasMore waveform.now }
    requires place { place ≡ place_at (view.job waveform.now) (length waveform.now.written) }
    ensures { IsTrue result → TellsCalm (view.job waveform.now) waveform.now.written (length waveform.now.written) }
{
    match waveform.next_class() {
        Some(class) => tells_there(&waveform.circuit(), place, class),
        None => false,
    }
}

/// Whether a class tells that its place is calm.
fn tells_there(circuit: &Circuit<'_>, place: Place, class: ClassByNumber) -> bool
    requires net { place.net < (job_in circuit.now).width }
    ensures { let j = job_in circuit.now in
        result ≡ true → tells_calm_of j.levels place.step (j.driver place.net) class ≡ true }
{
    let levels = circuit.stim.rules.levels;
    let step = place.step as usize;
    tells_by_class(levels, step, class)
        || tells_calm(levels, step, driver_at(circuit, place.net as usize), class)
}

/// The copies and cells that read a net become due, and one step later the registers that look back at it, unless it
/// keeps.
fn mark_moved(circuit: &Circuit<'_>, fans: &Fans, net: u32, keeps: bool, waiting: &mut Waiting)
    requires fans { AreFans (job_in circuit.now) fans.now }
    requires net { net < (job_in circuit.now).width }
    requires due_room { HasRoomFor waiting.old.due (job_in circuit.now).width }
    requires ahead_room { HasRoomFor waiting.old.ahead (job_in circuit.now).width }
    ensures due { AreReadersIn keeps (readers_of fans.now.cells net) waiting.old.due waiting.new.due }
    ensures ahead { AreReadersIn keeps (readers_of fans.now.registers net) waiting.old.ahead waiting.new.ahead }
{
    if keeps {
        return;
    }
    mark_readers(circuit, fans, net, waiting);
}

/// A position becomes due one step later, unless it is calm.
fn mark_restless(position: usize, calm: bool, waiting: &mut Waiting)
    requires { HasRoom waiting.old.ahead position }
    ensures due { waiting.new.due ≡ waiting.old.due }
    ensures long { length waiting.new.ahead ≡ length waiting.old.ahead }
    ensures more { OnlyMore waiting.old.ahead waiting.new.ahead }
    ensures calm { is_due waiting.new.ahead position ≡ false → calm ≡ true }
{
    if !calm {
        waiting.ahead.insert(position);
    }
}
