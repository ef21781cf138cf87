//! Steps as they are gone through: one at which statements are made, and one at which values may move.

ghost use Rattle.std.specs.Prelude.{◌*◌, ◌<◌};
ghost use Rattle.design_circuit.specs.Circuit.{job_in};

use design_cell::Value;
use design_circuit::{Circuit, Event};
use replay_fans::Fans;

/// A step of a circuit, all statements, and to which value each net is forced at the step.
#[derive(Clone, Copy)]
pub struct StatedStep<'s, 'c> {
    pub circuit: &'s Circuit<'c>,
    pub number: usize,
    pub statements: &'s [Event],
    pub forced: &'s [Option<Value>],
    pub ghost within: { number < (job_in circuit.now).moments * (job_in circuit.now).rounds },
}

/// A step of a circuit, and what reads the circuit's nets.
#[derive(Clone, Copy)]
pub struct MovingStep<'s, 'c> {
    pub circuit: &'s Circuit<'c>,
    pub number: usize,
    pub fans: &'s Fans,
    pub ghost within: { number < (job_in circuit.now).moments * (job_in circuit.now).rounds },
}
