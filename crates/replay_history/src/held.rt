//! What a row of a history shows and keeps of a net, and what a history that is being written does at a step.

ghost use Rattle.std.specs.Prelude.{◌≡◌, ◌*◌, ◌<◌};
ghost use Rattle.design_circuit.specs.Circuit.{job_in};
ghost use Rattle.design_circuit.specs.Handed.{HasPlaces, held_of, shown_of};
ghost use Rattle.design_circuit.specs.Job.{at};

use design_cell::Value;
use design_circuit::{Circuit, HistoryRow, HistoryWriter, Place};

/// The value that a net shows at the step of a row.
pub fn net_value(circuit: &Circuit<'_>, row: &HistoryRow<'_>, net: u32) -> Value
    requires net { net < (job_in circuit.now).width }
    requires places { HasPlaces (job_in circuit.now) row.now.history }
    requires step { row.now.step < (job_in circuit.now).moments * (job_in circuit.now).rounds }
    ensures { result ≡ shown_of (job_in circuit.now) row.now.history (at (job_in circuit.now) row.now.step net) }
{
    row.shown(net)
}

/// The value that a net keeps there.
pub fn net_kept(circuit: &Circuit<'_>, row: &HistoryRow<'_>, net: u32) -> Value
    requires net { net < (job_in circuit.now).width }
    requires places { HasPlaces (job_in circuit.now) row.now.history }
    requires step { row.now.step < (job_in circuit.now).moments * (job_in circuit.now).rounds }
    ensures { result ≡ (held_of (job_in circuit.now) row.now.history (at (job_in circuit.now) row.now.step net)).kept }
{
    row.kept(net)
}

/// The value that a net shows at a step of a history that is being written.
pub fn value_so_far(circuit: &Circuit<'_>, writer: &HistoryWriter, step: u32, net: u32) -> Value
    requires net { net < (job_in circuit.now).width }
    requires places { HasPlaces (job_in circuit.now) writer.now.history }
    requires step { step < (job_in circuit.now).moments * (job_in circuit.now).rounds }
    ensures { result ≡ shown_of (job_in circuit.now) writer.now.history (at (job_in circuit.now) step net) }
{
    writer.shown(Place { step, net })
}

/// The value that it keeps there.
pub fn kept_so_far(circuit: &Circuit<'_>, writer: &HistoryWriter, step: u32, net: u32) -> Value
    requires net { net < (job_in circuit.now).width }
    requires places { HasPlaces (job_in circuit.now) writer.now.history }
    requires step { step < (job_in circuit.now).moments * (job_in circuit.now).rounds }
    ensures { result ≡ (held_of (job_in circuit.now) writer.now.history (at (job_in circuit.now) step net)).kept }
{
    writer.kept(Place { step, net })
}
