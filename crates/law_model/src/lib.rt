//! What a waveform is made of, and when it is sound: classes, cones, queries, licences and lines, with the laws that
//! all who build waveforms rest on. It has no state.
//!
//! Start at specs/Class.antt, then Root.antt, Cone.antt, Query.antt, Line.antt and Sound.antt; then at `laws`.
#![tactic(auto)]

mod class;
mod laws;
mod limits;
mod line;
mod turn;
pub mod worked;

pub use class::{Class, ClassByNumber};
pub use laws::{
    arguments_are_read, bodies_give, carried_places_follow, carriers_are_one, class_is_first,
    cones_are_reached, few_sources_are_decided, lines_yield_one, models_are_consistent,
    refuted_queries_settle, sound_waveforms_are_one, waveforms_stay_sound, worlds_are_consistent,
};
pub use limits::Limits;
pub use line::{Body, Line};
pub use turn::{Turn, TurnLine};
