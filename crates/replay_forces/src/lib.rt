//! Forces: events that change something, and those under which the replay shows given values.
//!
//! Start at specs/Changes.antt, then ForcesOf.antt and Waves.antt; the calls are in statements.rt and wave.rt.
#![tactic(auto)]

mod changes;
mod given;
mod laws;
mod moves;
mod statements;
mod step;
mod steps;
mod values;
mod wave;

pub use laws::{
    changes_force, changes_replay, forces_are_events, forces_are_one, forces_exist, forces_show,
    forces_show_the_text,
};
pub use statements::changes_of;
pub use wave::forces_of;
