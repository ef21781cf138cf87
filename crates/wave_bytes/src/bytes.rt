//! The bytes of the places that are written, as what is known of them.

ghost use Rattle.std.specs.Prelude.{◌≡◌, ℕ, ◌+◌, ◌-◌, ◌<◌, ◌≤◌, ◌==◌, ◌||◌, ◌++◌, ◌∷◌, [], IfSome, length, map};
ghost use Rattle.std.specs.Prelude.{OnErr, OnOk};
ghost use Rattle.std.specs.Bool.{OnTrue};
ghost use Rattle.design_cell.specs.declared.value.Value.{Value as AnyValue};
ghost use Rattle.design_circuit.specs.Circuit.{job_in};
ghost use Rattle.design_circuit.specs.Job.{places_of};
ghost use Rattle.design_circuit.specs.Waveform.{certain, certain_by};
ghost use Rattle.law_model.specs.Class.{before, is_carried_on};
ghost use Rattle.law_model.specs.Yields.{is_line};
ghost use Rattle.law_quiet.specs.Copies.{CopiesAgree};
ghost use Rattle.law_quiet.specs.OfClass.{is_plain, AreWiresOf};
ghost use Rattle.wave_bytes.specs.Byte.{facts_in, facts_of_byte, written_of_byte};
ghost use Rattle.wave_bytes.specs.View.{next_class};
ghost use Rattle.wave_bytes.specs.Front.{StandsAt};
ghost use Rattle.wave_bytes.specs.Kept.{AreRowsOf, BytesTell, AreTrueBytes, IsNextClass, IsWrittenBehind, StepKeeps};
ghost use Rattle.wave_bytes.specs.Kept.{ValuesAgree, facts_next};

use crate::byte::{byte_of, is_carried_on, is_line, is_plain, keeps, written_in};
use crate::front::Front;
use crate::rows::Rows;
use base_lists::Memory;
use design_cell::Value;
use design_circuit::{Circuit, Mark, Source, Written, count_places};
use design_wiring::Wiring;
use law_model::ClassByNumber;
use law_quiet::{Asked, Earlier, class_at, keeps_here, place_before};

/// What is known of the places that are written.
#[derive(Clone, Copy, Debug)]
pub struct Bytes<'w> {
    pub rows: &'w Rows,
}

impl<'w> Source for Bytes<'w> {
    ghost reads = { λ s place. certain (map written_of_byte s.rows.now.bytes) place };

    ghost has = { λ s place. place < length s.rows.now.bytes };

    fn value(&self, place: usize) -> Value {
        certain_value(self.rows, place)
    }
}

impl<'w> Earlier for Bytes<'w> {
    ghost use Rattle.std.proofs.Common.{rules, arith};

    ghost facts = { λ s place. facts_in s.rows.now.bytes place };

    ghost count = { λ s. length s.rows.now.bytes };

    fn is_carried_on(&self, place: usize) -> bool {
        is_carried_on(self.rows.byte(place))
    }

    fn is_plain(&self, place: usize) -> bool {
        is_plain(self.rows.byte(place))
    }

    fn is_line(&self, place: usize) -> bool {
        is_line(self.rows.byte(place))
    }

    fn keeps(&self, place: usize) -> bool {
        keeps(self.rows.byte(place))
    }

    ghost has_all = { Prim.search (rules, arith) };
}

#[tactic(auto, unfolding(design_circuit::specs::Waveform::certain))]
fn certain_value(rows: &Rows, place: usize) -> Value
    requires { place < length rows.now.bytes }
    ensures { result ≡ certain (map written_of_byte rows.now.bytes) place }
{
    value_if_certain(written_in(rows.byte(place)))
}

/// The value where it is certain, else x.
pub fn value_if_certain(written: Written) -> Value
    ensures { result ≡ certain_by written.mark written.value }
{
    match written.mark {
        Mark::Certain => written.value,
        Mark::Unknown => Value::X,
        Mark::Undecided => Value::X,
    }
}

/// The class of the place behind those that are written, if there is one, given where it stands and whether all places
/// before it in its step keep.
pub fn class_behind(
    circuit: &Circuit<'_>,
    wiring: &Wiring,
    rows: &Rows,
    front: Front,
    all_keep: bool,
) -> Option<ClassByNumber>
    requires wired { AreWiresOf circuit.now wiring.now }
    requires within { length rows.now.bytes ≤ places_of (job_in circuit.now) }
    requires front { StandsAt (job_in circuit.now) (length rows.now.bytes) front }
    requires told { BytesTell (job_in circuit.now) rows.now.bytes }
    requires agrees { ValuesAgree (job_in circuit.now) (map written_of_byte rows.now.bytes) }
    requires keep { OnTrue all_keep (StepKeeps rows.now.bytes front.position (length rows.now.bytes)) }
    ensures { result ≡ next_class (job_in circuit.now) (map written_of_byte rows.now.bytes) }
{
    let place = rows.count();
    if place < count_places(circuit) {
        let asked = Asked {
            circuit,
            earlier: &Bytes { rows },
            place,
            position: front.position,
        };
        Some(class_at(&asked, wiring, all_keep))
    } else {
        None
    }
}

/// Whether all places before the next one in its step keep, given where it stands and whether those before the last one
/// do.
pub fn keep_behind(rows: &Rows, front: Front, before: bool) -> bool
    requires some { 0 < length rows.now.bytes }
    requires before { OnTrue before (0 < front.position → StepKeeps rows.now.bytes front.position (length rows.now.bytes - 1)) }
    ensures { OnTrue result (StepKeeps rows.now.bytes front.position (length rows.now.bytes)) }
{
    front.position == 0 || (before && keeps(rows.byte(rows.count() - 1)))
}

/// The same where the places before the next one were written many at once: each of those keeps.
pub fn keep_repeated(front: Front, before: bool) -> bool
    ensures { result ≡ (before || front.position == 0) }
{
    before || front.position == 0
}

/// Appends the byte of the next place, whose class is given. A copy has that of what it copies.
pub fn push_place(
    circuit: &Circuit<'_>,
    rows: &mut Rows,
    next: Option<ClassByNumber>,
    written: Written,
) -> Result<(), Memory>
    requires within { length rows.old.bytes < places_of (job_in circuit.now) }
    requires rows { AreRowsOf (job_in circuit.now) rows.old }
    requires kept { AreTrueBytes circuit.now rows.old.bytes }
    requires next { IsNextClass circuit.now rows.old.bytes next }
    requires agrees { ValuesAgree (job_in circuit.now) (map written_of_byte rows.old.bytes ++ written ∷ []) }
    requires copies { CopiesAgree (job_in circuit.now) (map written_of_byte rows.old.bytes ++ written ∷ []) }
    ensures ok { OnOk result (IsWrittenBehind (job_in circuit.now) rows.old.bytes rows.new.bytes written) }
    ensures err { OnErr result (rows.new ≡ rows.old) }
    ensures rows { AreRowsOf (job_in circuit.now) rows.new }
{
    if rows.is_copy() {
        rows.push_copy()?;
    } else {
        let byte = next_byte(circuit, rows, next, written);
        rows.push(byte)?;
    }
    Ok(())
}

/// The byte of the next place, whose class is given.
fn next_byte(
    circuit: &Circuit<'_>,
    rows: &Rows,
    next: Option<ClassByNumber>,
    written: Written,
) -> u8
    requires within { length rows.now.bytes < places_of (job_in circuit.now) }
    requires next { next ≡ next_class (job_in circuit.now) (map written_of_byte rows.now.bytes) }
    ensures written { written_of_byte result ≡ written }
    ensures facts { facts_of_byte result ≡ facts_next (job_in circuit.now) rows.now.bytes written }
{
    let place = rows.count();
    let carries = is_carrying_on(circuit, place, next);
    let plain = is_plain_class(next);
    let line = is_line_class(next);
    let here = value_if_certain(written);
    let keeps = keeps_here(circuit, &Bytes { rows }, place, here, carries);
    byte_of(written, carries, plain, line, keeps)
}

/// Whether a class is Local or Free.
fn is_plain_class(next: Option<ClassByNumber>) -> bool
    ensures { IfSome next (λ class. result ≡ is_plain class) }
{
    match next {
        Some(ClassByNumber::Local(_)) => true,
        Some(ClassByNumber::Free) => true,
        _ => false,
    }
}

/// Whether it is Line.
fn is_line_class(next: Option<ClassByNumber>) -> bool
    ensures { IfSome next (λ class. result ≡ is_line class) }
{
    matches!(next, Some(ClassByNumber::Line))
}

/// Whether it is Carried from the step before, as it is.
fn is_carrying_on(circuit: &Circuit<'_>, place: usize, next: Option<ClassByNumber>) -> bool
    requires within { place < places_of (job_in circuit.now) }
    ensures { IfSome next (λ class. result ≡ is_carried_on class (before (job_in circuit.now) place)) }
{
    match next {
        Some(ClassByNumber::Carried(from, false)) => from == place_before(circuit, place),
        _ => false,
    }
}
