//! Where a walk along the lines of a certificate stands.

use cert_turns::{Condition, Cones};
use wave_proved::Wave;

/// The wave so far, the conditions of its certain places, none in form 1, and what helps to find cones of it, which is
/// large, and a course is moved at each line.
#[derive(Drop)]
pub struct Course<'a> {
    pub wave: Wave<'a>,
    pub conditions: Vec<Condition>,
    pub cones: Box<Cones>,
}

/// A course that waits for a line, and the condition of its last place while turns of that are due.
#[derive(Drop)]
pub struct Walked<'a> {
    pub course: Course<'a>,
    pub under_way: Option<Condition>,
}
