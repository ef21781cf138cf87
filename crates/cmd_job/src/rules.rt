//! The rules of a job.

use design_circuit::RegisterRules;
use recording_binding::UndrivenRule;

/// By which rules a job is made of a netlist and a recording: how registers go, and what nets without a driver have.
#[derive(Clone, Copy, Debug, PartialEq, Eq, Hash)]
pub struct Rules {
    pub registers: RegisterRules,
    pub undriven: UndrivenRule,
}
