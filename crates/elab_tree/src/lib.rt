//! What a netlist's tree stands for: the design of its top, and the laws of that.
//!
//! Start at specs/Elaborate.antt, then read specs/Text.antt, Relation.antt and Laws.antt.
#![tactic(auto)]

mod laws;
pub mod worked;

pub use laws::{
    designs_fit, drivers_are_kept, items_are_exact, items_stand_well, one_outcome, some_outcome,
    tops_are_exact,
};
