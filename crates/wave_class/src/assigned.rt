//! Bits of places by number, and what the rule of a place makes of them.

ghost use Rattle.std.specs.Prelude.{◌≡◌, ℕ, ◌<◌};
ghost use Rattle.design_circuit.specs.Circuit.{job_in};
ghost use Rattle.design_circuit.specs.Job.{places_of};
ghost use Rattle.law_model.specs.Assignment.{assigned};
ghost use Rattle.law_model.specs.Mask.{masked};
ghost use Rattle.wave_class.specs.Test.{numbered_value};

use crate::arguments::argument_places;
use design_cell::Value;
use design_circuit::{BitSource, Circuit, Source};

/// The bits of a number for some places, the lowest for the first. Any other place has 0.
#[derive(Clone, Copy, Debug)]
pub struct Numbered<'a> {
    pub places: &'a [usize],
    pub number: u16,
}

impl<'a> BitSource for Numbered<'a> {
    ghost bits = { λ s place. masked s.places.now s.number place };

    ghost has = { λ s place. Unit {0} };

    fn bit(&self, place: usize) -> bool {
        let mut rest = self.number;
        'places: for k in self.places {
            if *k == place {
                return rest % 2 == 1;
            }
            rest /= 2;
        }
        false
    }
}

/// Those bits where a place isn't certain; a certain one has its value.
#[derive(Clone, Copy, Debug)]
pub struct Assigned<'a, C> {
    pub certain: &'a C,
    pub chosen: Numbered<'a>,
}

impl<'a, C: Source> BitSource for Assigned<'a, C> {
    ghost bits = { λ s place. assigned (C.reads s.certain.now) (masked s.chosen.places.now s.chosen.number) place };

    ghost has = { λ s place. C.has s.certain.now place };

    fn bit(&self, place: usize) -> bool {
        match self.certain.value(place) {
            Value::Zero => false,
            Value::One => true,
            Value::X => self.chosen.bit(place),
            Value::Z => self.chosen.bit(place),
        }
    }
}

/// What the rule of a place gives where bit i of a number is the bit of its argument place i.
pub fn rule_value<C: Source>(circuit: &Circuit<'_>, certain: &C, place: usize, number: u16) -> Value
    requires within { place < places_of (job_in circuit.now) }
    requires certain { (k : ℕ) → k < place → C.has certain.now k }
    ensures { result ≡ numbered_value (job_in circuit.now) (C.reads certain.now) place number }
{
    let arguments = argument_places(circuit, certain, place);
    let bits = Numbered {
        places: arguments.as_slice(),
        number,
    };
    design_circuit::rule_value(circuit, certain, &bits, place)
}
