//! Writing the places whose class says what they are.

ghost use Rattle.std.specs.Prelude.{◌≡◌, ◌↔◌, ◌<◌, IsTrue, IfOk, IfErr, length};
ghost use Rattle.design_circuit.specs.declared.waveform.Mark.TheVariants.{Certain};
ghost use Rattle.design_circuit.specs.Waveform.{written_at};
ghost use Rattle.law_model.specs.Sound.{IsOptimistic};
ghost use Rattle.law_model.specs.Yields.{carried_of, certain_bit, flipped_value};
ghost use Rattle.wave_proved.specs.Advance.{Contradicts, GoesOn, IfObjects, IsAdvanced, IsObjected, IsPlain, Objects};
ghost use Rattle.wave_proved.specs.Advance.{Reports, plain_written, with_written};
ghost use Rattle.wave_proved.specs.Contents.{IsWave, next_number, next_seen, shown_in};
ghost use Rattle.wave_proved.specs.Token.{HasNext};

use crate::wave::Wave;
use base_lists::Memory;
use design_cell::Value;
use design_circuit::{Mark, Place, Written, count_places};
use law_model::{ClassByNumber, Line};
use wave_due::value_if_certain;

/// A place that the history knows and that is found otherwise.
#[derive(Debug, Drop)]
pub struct Optimistic {
    pub place: Place,
    /// What the history shows there.
    pub replayed: Value,
    /// What is found, x for an unknown place.
    pub found: Value,
    /// The lines so far.
    pub lines: Vec<Line>,
}

/// Why a wave doesn't go on.
#[derive(Debug, Drop)]
pub enum AdvanceErr {
    /// The next place is known to the history, and found otherwise.
    Optimistic(Optimistic),
    /// There was no memory.
    Memory,
}

impl From<Memory> for AdvanceErr {
    ghost use Rattle.std.specs.Prelude.{◌≡◌};
    ghost use Rattle.wave_proved.specs.declared.advance.AdvanceErr.TheVariants.{Memory as OutOfMemory};

    ghost from_gives = { λ _ err. err ≡ OutOfMemory };

    fn from(_: Memory) -> Self {
        AdvanceErr::Memory
    }
}

impl<'a> Wave<'a> {
    /// Writes the next place, whose class says what it is; or gives the wave up where the history knows the place
    /// otherwise, or there is no memory.
    pub fn advance(self) -> Result<Wave<'a>, AdvanceErr>
        requires plain { IsPlain (next_seen self) }
        ensures ok { IfOk result (λ w. w ≡ with_written self.entry (plain_written self.entry)) }
        ensures optimistic { Objects result ↔ Contradicts self.entry (plain_written self.entry) }
        ensures reported { IfErr result (IfObjects (Reports self.entry (plain_written self.entry))) }
    {
        let wave = self.write_plain()?;
        Ok(wave.find_next())
    }

    /// The same, without a look at the place behind it.
    fn write_plain(self) -> Result<Wave<'a>, AdvanceErr>
        requires plain { IsPlain (next_seen self) }
        ensures ok { IfOk result (λ w. w ≡ with_written self.entry (plain_written self.entry)) }
        ensures optimistic { Objects result ↔ Contradicts self.entry (plain_written self.entry) }
        ensures reported { IfErr result (IfObjects (Reports self.entry (plain_written self.entry))) }
    {
        let shown = self.shown_next();
        let written = next_written(&self, shown);
        if is_optimistic(written, shown) {
            return Err(AdvanceErr::Optimistic(optimistic_of(self, written, shown)));
        }
        Ok(self.append(written)?)
    }

    /// Writes each place up to the next Line place, or to the end, as `advance` does. Only those are looked at that may
    /// have something else than their net's place a step before.
    pub fn advance_to_line(self) -> Result<Wave<'a>, AdvanceErr>
        ensures ok { IfOk result (IsAdvanced self.entry) }
        ensures reported { IfErr result (IfObjects (IsObjected self.entry)) }
    {
        let mut wave = self.skip();
        'places: while is_plain_next(&wave) {
            let written = wave.write_plain()?;
            wave = written.skip();
        }
        Ok(wave)
    }

    /// Writes the places up to the next one that is due, and finds the class of that.
    fn skip(self) -> Wave<'a>
        ensures { GoesOn self.entry result }
    {
        let mut wave = self;
        let mut more = has_next(&wave);
        'runs: while more {
            let (next, some) = wave.skip_run();
            wave = next;
            more = has_more(&wave, some);
        }
        wave.find_next()
    }
}

/// Whether there is a next place.
fn has_next(wave: &Wave<'_>) -> bool
    ensures { IsTrue result ↔ HasNext wave.now }
{
    wave.count() < count_places(&wave.circuit())
}

/// Whether there is one, where the last run had any.
fn has_more(wave: &Wave<'_>, some: bool) -> bool
    ensures some { IsTrue result → IsTrue some }
    ensures next { IsTrue result → HasNext wave.now }
{
    some && has_next(wave)
}

/// Whether the class of the next place says what it is.
fn is_plain_next(wave: &Wave<'_>) -> bool
    ensures plain { IsTrue result ↔ IsPlain (next_seen wave.now) }
    ensures wave { IsWave wave.now }
{
    match wave.next_class() {
        Some(ClassByNumber::Local(_)) => true,
        Some(ClassByNumber::Free) => true,
        Some(ClassByNumber::Carried(_, _)) => true,
        Some(ClassByNumber::Line) => false,
        None => false,
    }
}

/// Gives a wave up over its next place.
pub(crate) fn optimistic_of(wave: Wave<'_>, written: Written, replayed: Value) -> Optimistic
    requires within { HasNext wave }
    requires replayed { replayed ≡ shown_in wave (next_number wave) }
    ensures { Reports wave.entry written result }
{
    Optimistic {
        place: wave.place_behind(),
        replayed,
        found: value_if_certain(written),
        lines: wave.into_lines(),
    }
}

/// What the class of the next place says that it is.
fn next_written(wave: &Wave<'_>, shown: Value) -> Written
    requires plain { IsPlain (next_seen wave.now) }
    requires shown { shown ≡ shown_in wave.now (next_number wave.now) }
    ensures { result ≡ plain_written wave.now }
{
    match wave.next_class() {
        Some(ClassByNumber::Local(bit)) => certain_written(bit),
        Some(ClassByNumber::Free) => Written {
            value: shown,
            mark: Mark::Unknown,
        },
        Some(ClassByNumber::Carried(from, inverted)) => {
            carried_written(inverted, wave.written(from), shown)
        }
        Some(ClassByNumber::Line) => unreachable!(),
        None => unreachable!(),
    }
}

/// A certain place with a bit.
pub(crate) fn certain_written(bit: bool) -> Written
    ensures { result ≡ certain_bit bit }
{
    Written {
        value: Value::from_bit(bit),
        mark: Mark::Certain,
    }
}

fn carried_written(inverted: bool, from: Written, shown: Value) -> Written
    ensures { result ≡ carried_of inverted from.mark from.value shown }
{
    match from.mark {
        Mark::Certain => Written {
            value: value_flipped(inverted, from.value),
            mark: Mark::Certain,
        },
        Mark::Unknown => Written {
            value: shown,
            mark: Mark::Unknown,
        },
        Mark::Undecided => Written {
            value: shown,
            mark: Mark::Undecided,
        },
    }
}

fn value_flipped(inverted: bool, value: Value) -> Value
    ensures { result ≡ flipped_value inverted value }
{
    match value {
        Value::Zero => Value::from_bit(inverted),
        Value::One => Value::from_bit(!inverted),
        Value::X => Value::X,
        Value::Z => Value::Z,
    }
}

/// Whether what is written contradicts what the history shows.
pub(crate) fn is_optimistic(written: Written, shown: Value) -> bool
    ensures { IsTrue result ↔ IsOptimistic written.mark written.value shown }
{
    match written.mark {
        Mark::Certain => differs_from(written.value, shown),
        Mark::Unknown => shown.is_known(),
        Mark::Undecided => false,
    }
}

fn differs_from(value: Value, shown: Value) -> bool
    ensures { IsTrue result ↔ IsOptimistic Certain value shown }
{
    match shown {
        Value::Zero => value != Value::Zero,
        Value::One => value != Value::One,
        Value::X => false,
        Value::Z => false,
    }
}
