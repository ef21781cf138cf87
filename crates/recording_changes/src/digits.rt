//! The digits of changes, by number. A single digit takes no memory.

ghost use Rattle.std.specs.Prelude.{◌≡◌, ℕ, ◌+◌, ◌<◌, ◌≤◌, [], ◌∷◌, List, length, OnOk, OnErr, IfOk, IfSome};
ghost use Rattle.std.specs.Prelude.{slice_index_or};
ghost use Rattle.recording_changes.specs.Texts.{singles, Grows};

use crate::texts::Texts;
use base_lists::Memory;
use std::alloc::Global;
use std::marker::Model;

/// Digits by number: the six texts of one digit come first.
#[derive(Drop)]
pub struct Digits {
    texts: Texts,
}

impl Model for Digits {
    ghost use Rattle.std.specs.Prelude.{◌≡◌, List, ℕ, take};
    ghost use Rattle.recording_changes.specs.Texts.{singles};

    ghost Value = { List (List ℕ) };

    ghost view = { λ d. d.texts };

    ghost invariant = { λ d. take 6 d.texts ≡ singles };
}

impl Digits {
    pub fn new(alloc: Global) -> Result<Digits, Memory>
        ensures { IfOk result (λ digits. digits ≡ singles) }
    {
        let mut texts = Texts::new(alloc);
        texts.push(b"0".as_slice())?;
        texts.push(b"1".as_slice())?;
        texts.push(b"x".as_slice())?;
        texts.push(b"X".as_slice())?;
        texts.push(b"z".as_slice())?;
        texts.push(b"Z".as_slice())?;
        Ok(Digits { texts })
    }

    /// The number of these digits.
    pub fn add(&mut self, digits: &[u8]) -> Result<u32, Memory>
        ensures grows { Grows self.old self.new }
        ensures within { IfOk result (λ number. number < length self.new) }
        ensures is { IfOk result (λ number. slice_index_or self.new number [] ≡ digits.now) }
        ensures few { length self.new ≤ length self.old + 1 }
    {
        let number = self.texts.len();
        if let Some(found) = single(digits) {
            return Ok(found);
        }
        if number > u32::MAX as usize {
            return Err(Memory);
        }
        self.texts.push(digits)?;
        Ok(number as u32)
    }

    /// The digits with this number.
    pub fn get(&self, number: u32) -> &[u8]
        requires { number < length self.now }
        ensures { result.now ≡ slice_index_or self.now number [] }
    {
        self.texts.get(number as usize)
    }
}

/// The number of a single digit.
fn single(digits: &[u8]) -> Option<u32>
    ensures within { IfSome result (λ number. number < 6) }
    ensures is { IfSome result (λ number. slice_index_or singles number [] ≡ digits.now) }
{
    if digits.len() != 1 {
        return None;
    }
    match digits[0] {
        b'0' => Some(0),
        b'1' => Some(1),
        b'x' => Some(2),
        b'X' => Some(3),
        b'z' => Some(4),
        b'Z' => Some(5),
        _ => None,
    }
}
