//! The nets of a variable's bits.

ghost use Rattle.std.specs.Prelude.{◌≡◌};

use smallvec::SmallVec;
use std::marker::Model;

/// Numbers of nets in order, up to two of them in the place itself: most variables have one bit, and each look at it
/// would go to a block of its own. Contracts see the list.
#[derive(Drop)]
pub struct NetNumbers {
    list: SmallVec<u32, 2>,
}

impl Model for NetNumbers {
    ghost use Rattle.std.specs.Prelude.{List, ℕ};

    ghost Value = { List ℕ };

    ghost view = { λ numbers. numbers.list.items };
}

impl NetNumbers {
    /// The numbers of a vector.
    pub fn from_vec(numbers: Vec<u32>) -> NetNumbers
        ensures { result ≡ numbers.items }
    {
        NetNumbers {
            list: SmallVec::from_vec(numbers),
        }
    }

    /// The numbers.
    pub fn as_slice(&self) -> &[u32]
        ensures { result.now ≡ self.now }
    {
        self.list.as_slice()
    }
}
