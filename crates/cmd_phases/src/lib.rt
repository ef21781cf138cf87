//! What the commands share: texts read and judged, the comparison, the walk with its progress, and causes with their
//! lines. Each call comes to what the phases of `specs/Phases.antt` come to.
//!
//! A job goes by these files: `job.rt` and `judged.rt` (files to a design and a recording of it, in `parts.rt`, and the
//! comparison), `walked.rt` (the walk over all places), `sets.rt` (starts that are set), `forced.rt` (the forces of a
//! code), `certified.rt` (a certificate, and its check), `forms.rt` (the forms of a certificate, and the conditions that
//! it goes with), `objection.rt` (a place that is found otherwise), `cause.rt` and `line.rt` (what texts are refused for,
//! and its line). Start at `job_of`.
#![tactic(auto)]

mod cause;
mod certified;
mod forced;
mod forms;
mod job;
mod judged;
mod line;
mod objection;
mod parts;
mod pieces;
mod sets;
mod walked;

pub use cause::{Lack, Objection, Refused, Uncertified};
pub use cert_check::{Cert, Form, write_cert};
pub use certified::{certificate_of, certified_wave};
pub use forced::{TEXT_BYTES, forces_of};
pub use forms::{conditions_for, form_of, without_turns};
pub use job::{NETLIST_BYTES, RECORDING_BYTES, agreed_of, job_of};
pub use judged::{compared, netlist_in, recorded_in, short_in};
pub use parts::{Agreed, Fitted, Parts};
pub use pieces::{names_of, pieces_of};
pub use report_listing::{Condition, audit_text, blame_text, fix_text, put_conditions};
pub use sets::{replay_of, sets_of, started};
pub use walked::{replay_wave, wave_of, wave_under};
