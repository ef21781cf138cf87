//! A place that was written anew, and its byte.

ghost use Rattle.std.specs.Prelude.{◌≡◌, ℕ, ◌<◌, ◌^◌};
ghost use Rattle.wave_bytes.specs.Anew.{anew_byte, anew_number, anew_written};

use crate::byte::written_in;
use design_circuit::Written;

/// A place that hasn't what its net's place a step before has: its number and its byte in eight bytes, the byte in the
/// low one.
#[derive(Clone, Copy, Debug)]
pub struct Anew {
    word: u64,
}

impl Anew {
    pub(crate) fn new(number: usize, byte: u8) -> Anew
        requires { number < 2 ^ 56 }
        ensures number { anew_number result ≡ number }
        ensures byte { anew_byte result ≡ byte }
    {
        Anew {
            word: number as u64 * 256 + byte as u64,
        }
    }

    /// The number of the place.
    pub fn number(&self) -> usize
        ensures { result ≡ anew_number self.now }
    {
        (self.word / 256) as usize
    }

    /// What stands there.
    pub fn written(&self) -> Written
        ensures { result ≡ anew_written self.now }
    {
        written_in((self.word % 256) as u8)
    }
}
