//! What most commands begin with, over texts alone: a netlist to a design and its order, a recording of it to a binding
//! and a stimulus, and the replay compared with the recording; each with its refusals, their statuses and their lines.
//!
//! Start at `read_netlist`, `read_recording` and `replay_and_compare`, and at specs/Netlist.antt, Recorded.antt and
//! Compared.antt, which say what texts come to, phase by phase.
#![tactic(auto)]

mod circuit;
mod compare;
mod compare_refusal;
mod laws;
mod lines;
mod names;
mod netlist;
mod netlist_refusal;
mod recorded;
mod recording_refusal;
mod rules;
mod settings;

pub use circuit::circuit_of;
pub use compare::replay_and_compare;
pub use compare_refusal::{CompareErr, CompareRefusal};
pub use laws::{netlists_come_to_one, recordings_come_to_one};
pub use lines::{put_compare_line, put_netlist_line, put_recording_line};
pub use netlist::{Netlist, read_netlist};
pub use netlist_refusal::{NetlistErr, NetlistRefusal};
pub use recorded::{PLACES, Recorded, read_recording};
pub use recording_refusal::{RecordingErr, RecordingRefusal};
pub use rules::Rules;
pub use settings::Settings;
