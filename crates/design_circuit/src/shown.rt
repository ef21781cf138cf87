//! A history as what has values at places.

ghost use Rattle.design_cell.specs.declared.value.Value.{Value as AnyValue};
ghost use Rattle.design_circuit.specs.Circuit.{job_in};
ghost use Rattle.design_circuit.specs.Handed.{ShowsPlace, shown_of};

use crate::circuit::Circuit;
use crate::history::History;
use crate::reads::Source;
use crate::writer::HistoryWriter;
use design_cell::Value;

/// What a history shows at the places of a circuit.
#[derive(Clone, Copy, Debug)]
pub struct Shown<'a> {
    pub circuit: Circuit<'a>,
    pub history: &'a History,
}

impl<'a> Source for Shown<'a> {
    ghost reads = { λ s place. shown_of (job_in s.circuit) s.history.now place };

    ghost has = { λ s place. ShowsPlace s.circuit s.history.now place };

    fn value(&self, place: usize) -> Value {
        self.history.shown(self.circuit.place_of(place))
    }
}

/// What a history shows so far, as it is written, at the places of a circuit.
#[derive(Clone, Copy, Debug)]
pub struct ShownSoFar<'a> {
    pub circuit: Circuit<'a>,
    pub history: &'a HistoryWriter,
}

impl<'a> Source for ShownSoFar<'a> {
    ghost reads = { λ s place. shown_of (job_in s.circuit) s.history.now.history place };

    ghost has = { λ s place. ShowsPlace s.circuit s.history.now.history place };

    fn value(&self, place: usize) -> Value {
        self.history.shown(self.circuit.place_of(place))
    }
}
