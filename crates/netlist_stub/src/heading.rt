//! What stands before the names of a declaration.

ghost use Rattle.std.specs.Prelude.{◌≡◌};
ghost use Rattle.netlist_trim.specs.Shown.{seen};
ghost use Rattle.netlist_stub.specs.Known as spec;

use netlist_stub_read::is;
use netlist_trim::Spelled;

/// Where a port leads.
#[derive(Clone, Copy)]
pub enum Direction {
    Input,
    Output,
    Inout,
}

/// How wide a port is.
#[derive(Clone, Copy)]
pub enum Width {
    /// One bit.
    Scalar,
    /// A range that begins here isn't worked out.
    Unknown(usize),
    /// The left and the right bound.
    Bounds(usize, usize),
}

/// What stands before the names of a declaration.
#[derive(Clone, Copy)]
pub struct Heading {
    pub direction: Option<Direction>,
    /// The left bound of the last range, where it is worked out.
    pub left: Option<usize>,
    pub width: Width,
    /// Whether parameters have a type whose values aren't worked out.
    pub typed: bool,
}

/// How a port is declared.
#[derive(Clone, Copy)]
pub struct Declared {
    pub direction: Direction,
    pub width: Width,
}

/// The direction that a word is.
fn direction_of(token: Spelled<'_>) -> Direction
    ensures { result ≡ spec.direction_of (seen token.entry) }
{
    if is(token, b"input") {
        Direction::Input
    } else if is(token, b"output") {
        Direction::Output
    } else {
        Direction::Inout
    }
}

/// The width of a range, if both bounds are worked out.
fn bounds_of(width: Width, left: Option<usize>, right: Option<usize>) -> Width
    ensures { result ≡ spec.bounds_of width left right }
{
    match (left, right) {
        (Some(left), Some(right)) => Width::Bounds(left, right),
        _ => width,
    }
}

impl Heading {
    ghost use Rattle.std.specs.Prelude.{◌≡◌};
    ghost use Rattle.netlist_trim.specs.Shown.{seen};
    ghost use Rattle.netlist_stub.specs.Known as spec;

    /// Nothing.
    pub fn blank() -> Heading
        ensures { result ≡ spec.blank }
    {
        Heading {
            direction: None,
            left: None,
            width: Width::Scalar,
            typed: false,
        }
    }

    /// A direction more.
    pub fn directed(self, token: Spelled<'_>) -> Heading
        ensures { result ≡ spec.directed (seen token.entry) self }
    {
        Heading {
            direction: Some(direction_of(token)),
            left: None,
            width: Width::Scalar,
            typed: self.typed,
        }
    }

    /// A range begins here.
    pub fn ranged(self, at: usize) -> Heading
        ensures { result ≡ spec.ranged at self }
    {
        Heading {
            direction: self.direction,
            left: None,
            width: Width::Unknown(at),
            typed: self.typed,
        }
    }

    /// The left bound of the range is this.
    pub fn with_left(self, left: usize) -> Heading
        ensures { result ≡ spec.with_left left self }
    {
        Heading {
            direction: self.direction,
            left: Some(left),
            width: self.width,
            typed: self.typed,
        }
    }

    /// The range ends.
    pub fn closed_by(self, right: Option<usize>) -> Heading
        ensures { result ≡ spec.closed_by right self }
    {
        Heading {
            direction: self.direction,
            left: self.left,
            width: bounds_of(self.width, self.left, right),
            typed: self.typed,
        }
    }

    /// Parameters have a type whose values aren't worked out, or haven't.
    pub fn with_typed(self, typed: bool) -> Heading
        ensures { result ≡ spec.with_typed typed self }
    {
        Heading {
            direction: self.direction,
            left: self.left,
            width: self.width,
            typed,
        }
    }
}
