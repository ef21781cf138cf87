//! The laws of texts, each the contract of a function that does nothing.

ghost use Rattle.cmd_job.specs.Netlist.{NetlistsComeToOne};
ghost use Rattle.cmd_job.specs.Recorded.{RecordingsComeToOne};

/// A netlist's text with a top comes to one outcome.
pub fn netlists_come_to_one()
    ensures { NetlistsComeToOne }
{}

/// A recording's text, for a design, a scope, rounds and rules, comes to one outcome.
pub fn recordings_come_to_one()
    ensures { RecordingsComeToOne }
{}
