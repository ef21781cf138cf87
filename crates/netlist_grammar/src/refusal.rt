//! Why a text is none of the grammar.

ghost use Rattle.std.specs.Prelude.{◌≡◌};
ghost use Rattle.netlist_grammar.specs.Fault.{fault_in};
ghost use Rattle.netlist_grammar.specs.declared.refusal.ParseErr.TheVariants.{Memory as OutOfMemory};

use crate::fault::NetlistFault;
use base_lists::Memory;
use netlist_tokens::LexErr;
use std::alloc::{AllocError, AllocFailed};

/// The first token with which no text of the grammar goes on. `at` is its first byte, or the length of the text at its
/// end.
#[derive(Clone, Copy, Debug, PartialEq, Eq)]
pub enum ParseErr {
    /// There is no token.
    Lex(LexErr),
    /// The token may not stand here.
    Unexpected { at: usize },
    /// The token begins an item that the profile leaves out.
    OutOfProfile { at: usize },
    Memory,
}

impl ParseErr {
    /// What is wrong with the text, `None` exactly when out of memory.
    pub fn fault(self) -> Option<NetlistFault>
        ensures { result ≡ fault_in self }
    {
        match self {
            ParseErr::Lex(fault) => Some(NetlistFault::Lex(fault)),
            ParseErr::Unexpected { at } => Some(NetlistFault::Unexpected { at }),
            ParseErr::OutOfProfile { at } => Some(NetlistFault::OutOfProfile { at }),
            ParseErr::Memory => None,
        }
    }
}

impl From<AllocError> for ParseErr {
    ghost from_gives = { λ _ refusal. refusal ≡ OutOfMemory };

    fn from(_: AllocError) -> ParseErr {
        ParseErr::Memory
    }
}

impl<T: Drop> From<AllocFailed<T>> for ParseErr {
    ghost from_gives = { λ _ refusal. refusal ≡ OutOfMemory };

    fn from(_: AllocFailed<T>) -> ParseErr {
        ParseErr::Memory
    }
}

impl From<Memory> for ParseErr {
    ghost from_gives = { λ _ refusal. refusal ≡ OutOfMemory };

    fn from(_: Memory) -> ParseErr {
        ParseErr::Memory
    }
}
