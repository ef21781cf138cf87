//! A step of a replay.

ghost use Rattle.replay_history.specs.Step.{IsStep, IsStep-prop};

use design_cell::Value;
use design_circuit::{Circuit, Event};

/// A step that is to be filled: the circuit, all events, the value to which each net is forced at the step, its number,
/// and which events are new at it: those from one on, up to another.
#[derive(Clone, Copy)]
pub struct Step<'a> {
    pub circuit: &'a Circuit<'a>,
    pub events: &'a [Event],
    pub forced: &'a [Option<Value>],
    pub number: u32,
    pub from: usize,
    pub to: usize,
    pub ghost fits: { IsStep circuit.now events.now forced.now number from to } by { IsStep-prop _ _ _ _ _ _ },
}
