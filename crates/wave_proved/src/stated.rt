//! The two fillings that are stated for an unknown place: those of its root.

ghost use Rattle.std.specs.Prelude.{◌≡◌, ◌<◌, ◌≤◌, ◌↔◌, [], ◌∷◌, IfOk, IfSome, IsSome, length, option_copied};
ghost use Rattle.design_circuit.specs.Circuit.{job_in};
ghost use Rattle.design_circuit.specs.Filling.{IsPlace};
ghost use Rattle.law_model.specs.Class.{flipped};
ghost use Rattle.law_model.specs.Stated.{body_at, pair_of, stated_in as stated_in_body};
ghost use Rattle.wave_proved.specs.Contents.{IsWave, IsWritten, job};
ghost use Rattle.wave_proved.specs.Pairs.{AreInOrder, AreParted, AreStated, GiveBoth, IsRootOf, IsUnknown, root_in};
ghost use Rattle.wave_proved.specs.Pairs.{stated_at_root, stated_in};

use crate::wave::Wave;
use base_lists::{Items, Memory};
use design_circuit::{Circuit, Filling, Mark, Place};
use law_model::{Body, ClassByNumber, Line};
use std::alloc::Global;

/// The root of a place, and whether the way to it inverts.
#[derive(Clone, Copy, Debug)]
struct Root {
    place: usize,
    inverted: bool,
}

impl<'a> Wave<'a> {
    /// Two fillings of a written place that is unknown, and none of any other: the world of the first gives 0 there,
    /// that of the second 1. Takes eight bytes for each place that they list.
    pub fn pair_of(&self, alloc: Global, place: Place) -> Result<Option<(Filling, Filling)>, Memory>
        requires { IsWritten self.now place }
        ensures unknown { IfOk result (λ pair. IsSome pair ↔ IsUnknown self.now place) }
        ensures stated { IfOk result (λ pair. IfSome pair (AreStated self.now place)) }
        ensures both { IfOk result (λ pair. IfSome pair (GiveBoth self.now place)) }
    {
        let number = self.circuit().number_of(place);
        match self.written(number).mark {
            Mark::Unknown => Ok(Some(self.stated(alloc, number)?)),
            Mark::Certain => Ok(None),
            Mark::Undecided => Ok(None),
        }
    }

    /// The root of a written place, and whether the way to it inverts: in the world of every filling the place has the
    /// bit of its root, or its complement where the way inverts.
    pub fn root_at(&self, place: Place) -> (Place, bool)
        requires { IsWritten self.now place }
        ensures { IsRootOf self.now place result }
    {
        let circuit = self.circuit();
        let root = self.root(circuit.number_of(place));
        (circuit.place_of(root.place), root.inverted)
    }

    /// The fillings of a root, swapped where the way to it inverts.
    fn stated(&self, alloc: Global, number: usize) -> Result<(Filling, Filling), Memory>
        requires wave { IsWave self.now }
        requires written { number < length self.now.written }
        ensures { IfOk result (λ fillings. pair_of fillings.0 fillings.1 ≡ stated_in self.now number) }
    {
        let root = self.root(number);
        let (zero, one) = self.stated_at_root(alloc, root.place)?;
        if root.inverted {
            Ok((one, zero))
        } else {
            Ok((zero, one))
        }
    }

    /// The root, found along the places that places are carried from.
    fn root(&self, number: usize) -> Root
        requires wave { IsWave self.now }
        requires written { number < length self.now.written }
        ensures place { result.place ≡ (root_in self.now number).place }
        ensures inverted { result.inverted ≡ (root_in self.now number).inverted }
        ensures within { result.place ≤ number }
    {
        let mut place = number;
        let mut inverted = false;
        'way: while let ClassByNumber::Carried(from, flips) = self.class_by_number(place) {
            place = from;
            inverted = flipped(inverted, flips);
        }
        Root { place, inverted }
    }

    /// A free root has the empty filling and the one that lists it alone, a Line place those in its line.
    fn stated_at_root(&self, alloc: Global, number: usize) -> Result<(Filling, Filling), Memory>
        requires wave { IsWave self.now }
        requires written { number < length self.now.written }
        ensures { IfOk result (λ fillings. pair_of fillings.0 fillings.1 ≡ stated_at_root self.now number) }
    {
        let circuit = self.circuit();
        match self.class_by_number(number) {
            ClassByNumber::Free => free_fillings(alloc, circuit.place_of(number)),
            ClassByNumber::Line => fillings_of(alloc, body_of(&circuit, self.lines(), number)),
            ClassByNumber::Local(_) => no_fillings(alloc),
            ClassByNumber::Carried(_, _) => no_fillings(alloc),
        }
    }
}

fn flipped(inverted: bool, bit: bool) -> bool
    ensures { result ≡ flipped inverted bit }
{
    if inverted { !bit } else { bit }
}

fn free_fillings(alloc: Global, place: Place) -> Result<(Filling, Filling), Memory>
    ensures zero { IfOk result (λ fillings. fillings.0 ≡ []) }
    ensures one { IfOk result (λ fillings. fillings.1 ≡ place ∷ []) }
{
    let one = [place].to_vec(alloc)?;
    Ok((Items::from_vec(Vec::new(alloc)), Items::from_vec(one)))
}

fn no_fillings(alloc: Global) -> Result<(Filling, Filling), Memory>
    ensures zero { IfOk result (λ fillings. fillings.0 ≡ []) }
    ensures one { IfOk result (λ fillings. fillings.1 ≡ []) }
{
    Ok((
        Items::from_vec(Vec::new(alloc)),
        Items::from_vec(Vec::new(alloc)),
    ))
}

/// The fillings in what a line says.
fn fillings_of(alloc: Global, body: Option<&Body>) -> Result<(Filling, Filling), Memory>
    ensures { IfOk result (λ fillings. pair_of fillings.0 fillings.1 ≡ stated_in_body (option_copied body.entry)) }
{
    match body {
        Some(Body::Pair(zero, one)) => Ok((copied(alloc, zero)?, copied(alloc, one)?)),
        Some(Body::Enumerated(_)) => no_fillings(alloc),
        Some(Body::Refuted(_, _)) => no_fillings(alloc),
        Some(Body::Undecided(_)) => no_fillings(alloc),
        None => no_fillings(alloc),
    }
}

fn copied(alloc: Global, filling: &Filling) -> Result<Filling, Memory>
    ensures { IfOk result (λ copy. copy ≡ filling.now) }
{
    Ok(Items::from_vec(filling.as_slice().to_vec(alloc)?))
}

/// What the line of the place of a number says, if there is one.
fn body_of<'l>(circuit: &Circuit<'_>, lines: &'l [Line], number: usize) -> Option<&'l Body>
    requires order { AreInOrder (job_in circuit.now) lines.now }
    ensures { option_copied result ≡ body_at (job_in circuit.now) lines.now number }
{
    let first = lines_before(circuit, lines, number);
    if first < lines.len() {
        body_if(circuit, &lines[first], number)
    } else {
        None
    }
}

/// What a line says, if it is that of the place of a number.
fn body_if<'l>(circuit: &Circuit<'_>, line: &'l Line, number: usize) -> Option<&'l Body>
    requires place { IsPlace (job_in circuit.now) line.now.place }
    ensures { option_copied result ≡ body_at (job_in circuit.now) (line.now ∷ []) number }
{
    if circuit.number_of(line.place) == number {
        Some(&line.body)
    } else {
        None
    }
}

/// How many lines stand before that of the place of a number, by halves.
fn lines_before(circuit: &Circuit<'_>, lines: &[Line], number: usize) -> usize
    requires order { AreInOrder (job_in circuit.now) lines.now }
    ensures { AreParted (job_in circuit.now) lines.now number result result }
{
    let mut low = 0;
    let mut high = lines.len();
    'halves: while low < high {
        let middle = low + (high - low) / 2;
        if circuit.number_of(lines[middle].place) < number {
            low = middle + 1;
        } else {
            high = middle;
        }
    }
    low
}
