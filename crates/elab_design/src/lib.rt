//! The design that a netlist's tree stands for (IEEE 1364-2005, clause 12), or the first reason why there is none.
//!
//! Start at `elaborate`; its definition stands in elab_tree. What a module declares is worked out once (`library.rt`),
//! and for each of its instances only the items are gone through that do something (`busy.rt`, `instances.rt`). An
//! instance of a module that makes no net is passed over where depth and path allow (`quiet.rt`).
#![tactic(auto)]

mod busy;
mod design;
mod elaborator;
mod instances;
mod laws;
mod levels;
mod library;
mod path;
mod quiet;

pub use design::elaborate;
pub use laws::levels_are_one;
