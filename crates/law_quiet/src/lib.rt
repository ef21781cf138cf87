//! Laws of places that have what their net's place a step before has, so that a walk by changes may pass over them; and
//! of copies, which have what their arguments have. It has no code.
//!
//! Start at specs/Due.antt, then specs/Laws.antt, and for copies at specs/Copies.antt.
#![tactic(auto)]

mod laws;
mod worked;

pub use laws::{
    copies_agree, quiet_is_tested, quiet_places_follow, quiet_places_keep, quiet_places_repeat,
    quiet_places_stay, quiet_runs_repeat, steps_are_swept,
};
pub use wave_class::{
    ArgumentsByNumber, Asked, Earlier, argument_places, cell_chooses, class_at, keeps_here,
    kept_class, place_before, rule_value,
};
pub use worked::quiet_by_hand;
