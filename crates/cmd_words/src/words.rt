//! The words of a job, each as the value that it stands for.

ghost use Rattle.std.specs.Prelude.{◌<◌, ◌≤◌, length};

/// What registers hold before the first step.
#[derive(Clone, Copy, Debug, PartialEq, Eq)]
pub enum Start {
    /// Each starts unknown.
    Cold,
    /// Each starts as it is first recorded.
    Recorded,
}

/// When pins that hold a register, an active set or reset or an open latch, decide it in the circuit of zeros and ones.
#[derive(Clone, Copy, Debug, PartialEq, Eq)]
pub enum Levels {
    /// When one of its pins changes.
    Change,
    /// At each step.
    Hold,
}

/// What nets without a driver have.
#[derive(Clone, Copy, Debug, PartialEq, Eq)]
pub enum Undriven {
    /// Each floats.
    Released,
    /// Each has what is recorded of it, if anything is.
    Recorded,
}

/// The form of a certificate.
#[derive(Clone, Copy, Debug, PartialEq, Eq)]
pub enum Form {
    /// Form 1: the lines alone.
    Lines,
    /// Form 2: also the turns of conditions. The report has the lines of conditions too.
    Turns,
}

/// The words of every command that reads a netlist and a recording of it.
#[derive(Clone, Copy, Debug)]
pub struct JobWords<'a> {
    /// The file of the recording.
    pub recording: &'a str,
    /// The scope of the top's instance, its names joined by dots.
    pub scope: &'a str,
    /// The top module.
    pub top: &'a str,
    /// The rounds of a moment, 1 to 16.
    pub rounds: u32,
    /// The most places: nets by moments by rounds, 1 to 2^40.
    pub places: u64,
    pub start: Start,
    pub levels: Levels,
    pub undriven: Undriven,
    /// The files of the netlist, one or more.
    pub netlists: &'a [String],
    ghost some_files: { 0 < length netlists.now },
    ghost some_rounds: { 1 ≤ rounds },
    ghost few_rounds: { rounds ≤ 16 },
    ghost some_places: { 1 ≤ places },
    ghost few_places: { places ≤ 1099511627776 },
}
