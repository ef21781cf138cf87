//! Positions of nodes.

ghost use Rattle.std.specs.Prelude.{◌≡◌, ◌<◌, ◌∷◌, ◌++◌, [], length};

use std::marker::Model;

/// At most 13 positions. Contracts see the list.
#[derive(Drop)]
pub struct Positions {
    len: usize,
    positions: [u32; 13],
}

impl Model for Positions {
    ghost use Rattle.std.specs.Prelude.{List, ℕ, take, ◌≤◌};

    ghost Value = { List ℕ };

    ghost view = { λ some. take some.len some.positions };

    ghost invariant = { λ some. some.len ≤ 13 };
}

impl Positions {
    /// No positions.
    pub fn new() -> Positions
        ensures { result ≡ [] }
    {
        Positions {
            len: 0,
            positions: [0; 13],
        }
    }

    /// Appends a position.
    pub fn push(&mut self, position: u32)
        requires { length self.old < 13 }
        ensures { self.new ≡ self.old ++ position ∷ [] }
    {
        self.positions[self.len] = position;
        self.len += 1;
    }

    /// The positions.
    pub fn as_slice(&self) -> &[u32]
        ensures { result.now ≡ self.now }
    {
        &self.positions[..self.len]
    }
}
