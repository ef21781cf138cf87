//! The cone of a place of a wave: all that its bit rests on, traced from the place downwards.
//!
//! A backward trace in reverse place order: of the places that are reached and not yet looked at the greatest comes
//! next, so each place of the cone is looked at once. The greatest stands apart and the others wait in a heap, which a
//! way of carried places leaves alone. A place costs its class, and where it isn't carried one evaluation of its rule
//! for each choice of bits for its uncertain arguments, at most 2^13; a tracer keeps what it rests on, so that it costs
//! this once. Nothing grows with the wave but the slots of a tracer, up to their bound. Start at
//! `Cones::cone`, which takes a cone from the graph of lanes as long as that is kept; `Tracer::trace` traces it. `trace` and
//! `trace_at` are for one cone alone, `boundary`, `certain_boundary` and `near_places` for what its rules read.
#![tactic(auto)]

mod again;
mod cones;
mod descent;
mod laws;
mod near;
mod outside;
mod positions;
mod traced;
mod tracer;
mod tracing;

pub use cones::Cones;
pub use decide_choices::{Choice, minimal_choices};
pub use decide_lanes::{Lanes, Shown};
pub use decide_nodes::{Cone, Node, NodeBody};
pub use laws::tracers_stay_right;
pub use near::{cone_places, near_places, position_in, positions_in};
pub use outside::{boundary, certain_boundary, is_among};
pub use tracer::Tracer;
pub use tracing::{trace, trace_at};
