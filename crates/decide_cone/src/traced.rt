//! A place of a cone, and what it rests on.

use decide_graph::TracedBody;

/// A place of a cone by number, and what it rests on.
#[derive(Drop)]
pub struct Traced {
    pub place: usize,
    pub body: TracedBody,
}
