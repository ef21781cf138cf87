//! Instances of modules: a module is opened, and its ports are connected. Start at `join`.
#![tactic(auto)]

mod connect;
mod joining;

pub use joining::join;
