//! Designs, stimuli and their places, and the definitions that the whole tool speaks of: the place order, the replay in
//! four values, the rule of a place, the world of a filling, and the exact waveform.
//!
//! Start at `Design` and `Stim`, then read specs/Job.antt, Replay.antt, Rule.antt, World.antt and Waveform.antt.
#![tactic(auto)]

mod circuit;
mod design;
mod driven;
mod filling;
mod force;
mod history;
mod laws;
mod name;
mod order;
mod place;
mod reads;
mod register;
mod row;
mod rule;
mod shown;
mod spot;
mod stim;
mod two_bits;
mod waveform;
mod writer;

pub use base_ledger::Change;
pub use circuit::Circuit;
pub use design::{Design, Driver, Latching, Net, Pin, Table};
pub use driven::{driven_value, kept_value};
pub use filling::is_filling;
pub use force::{Event, Forces};
pub use history::History;
pub use laws::{
    arguments_stand_before, exact_is_unique, jobs_fit, keeps_what_it_gives, rule_reads_arguments,
    rule_reads_earlier, worlds_are_unique, worlds_exist,
};
pub use name::{Bytes, Name, NamePart};
pub use order::Order;
pub use place::{Filling, Place};
pub use reads::{AsValues, BitSource, Source, net_value, pin_values};
pub use register::{clock_is_uncertain, clock_was_uncertain, updated_value};
pub use row::HistoryRow;
pub use rule::{remade_value, rule_value, table_value};
pub use shown::{Shown, ShownSoFar};
pub use spot::{Spot, count_places, driver_at, recorded_at, spot_of, start_at, width_of};
pub use stim::{Levels, RegisterRules, StartRule, Stim};
pub use waveform::{Mark, Written};
pub use writer::HistoryWriter;
