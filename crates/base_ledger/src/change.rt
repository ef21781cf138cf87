//! What is put at a position.

ghost use Rattle.std.specs.Prelude.{◌≡◌, ℕ, ◌<◌, ◌^◌};
ghost use Rattle.base_ledger.specs.Change.{packed_change, change_payload, change_position};

use base_sort::Keyed;

/// A position and a payload in four bytes: the payload in the low one.
#[derive(Clone, Copy, Debug, PartialEq, Eq)]
pub struct Change {
    word: u32,
}

impl Change {
    pub(crate) fn new(position: usize, payload: u8) -> Change
        requires { position < 2 ^ 24 }
        ensures { result ≡ packed_change position payload }
    {
        Change {
            word: position as u32 * 256 + payload as u32,
        }
    }

    /// The position that it is put at.
    pub fn position(&self) -> usize
        ensures { result ≡ change_position self.now }
    {
        (self.word / 256) as usize
    }

    /// The value that is put there.
    pub fn payload(&self) -> u8
        ensures { result ≡ change_payload self.now }
    {
        (self.word % 256) as u8
    }
}

impl Keyed for Change {
    ghost key = { change_position };

    fn key(&self) -> usize {
        self.position()
    }
}
