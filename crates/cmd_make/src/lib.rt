//! Made jobs: the netlist and the recording that a number and a number of gates stand for, the same on every machine.
//! Start at `made_netlist` and specs/Netlist.antt, then at `made_recording` and specs/Recording.antt.
#![tactic(auto)]

mod bound;
mod draws;
mod inputs;
mod laws;
mod netlist;
mod pool;
mod recording;
mod stimulus;

pub use laws::recordings_are_one;
pub use netlist::made_netlist;
pub use recording::made_recording;
