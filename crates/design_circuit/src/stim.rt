//! What drives the inputs of a design, and what its registers start with.

ghost use Rattle.std.specs.Prelude.{◌≡◌, ◌<◌, ◌≤◌, ◌^◌, All, length};
ghost use Rattle.std.proofs.Props.{props};

use base_lists::Items;
use design_cell::Value;
use design_inputs::Inputs;

/// What a register starts with, and what it sees of its pins before step 0.
#[derive(Clone, Copy, Debug, PartialEq, Eq, Hash)]
pub enum StartRule {
    /// It starts as its primitive says; before step 0 each pin is x.
    Cold,
    /// It starts with its recorded value; before step 0 each pin is as at step 0.
    Recorded,
}

/// When pins that hold a register at a bit whatever its state is, an active set or reset or an open latch, decide it in
/// the circuit of zeros and ones.
#[derive(Clone, Copy, Debug, PartialEq, Eq, Hash)]
pub enum Levels {
    /// When one of its pins changes, as in the replay.
    Change,
    /// At each step.
    Hold,
}

/// By which rules registers go.
#[derive(Clone, Copy, Debug, PartialEq, Eq, Hash)]
pub struct RegisterRules {
    pub start: StartRule,
    pub levels: Levels,
}

/// The recorded values of the inputs, moment by moment, and the starts of the registers.
#[derive(Debug, Drop)]
pub struct Stim {
    /// The times of the moments, in the recording's ticks, strictly ascending.
    pub times: Items<u64>,
    /// How many rounds each moment has, 1 to 16.
    pub rounds: u32,
    /// For each moment a value for each net, x at a net that isn't an input.
    pub inputs: Inputs,
    /// By which rules the registers go.
    pub rules: RegisterRules,
    /// For each net what it starts with, x at a net that isn't a register; none is z.
    pub starts: Items<Value>,
    ghost some_moment: { 0 < length times },
    ghost few_moments: { length times < 2 ^ 28 },
    ghost some_round: { 0 < rounds },
    ghost few_rounds: { rounds ≤ 16 },
    ghost rows: { length inputs ≡ length times },
    ghost small_times: { All (λ time. time < 2 ^ 64) times } by { Prim.hlevel props },
}
