//! The pool: the nets that the pins of gates and registers are drawn from, by their numbers.

ghost use Rattle.std.specs.Prelude.{◌≡◌, ◌++◌, ◌<◌, ◌+◌, OnOk, decimal, length};
ghost use Rattle.cmd_make.specs.Draw.{after_draw};
ghost use Rattle.cmd_make.specs.Pool as spec;

use crate::draws::Draws;
use base_lists::{Memory, put, put_number};

/// How many inputs there are beside the clock.
pub const INPUTS: u32 = 8;

/// How many registers there are.
pub const REGISTERS: u32 = 4;

/// How many members the pool has at first.
const FIRST: u64 = 12;

/// The number of a member of the pool of so many gates, drawn.
pub fn draw_member(draws: &mut Draws, gates: u32) -> u64
    ensures drawn { spec.member_name result ≡ spec.drawn_member (spec.pool_of gates) draws.old.state }
    ensures after { draws.new.state ≡ after_draw draws.old.state }
{
    draws.draw(size_of(gates))
}

/// How many members the pool of so many gates has.
#[tactic(auto, using(crate::proofs::Members::pool_length))]
fn size_of(gates: u32) -> u64
    ensures is { result ≡ length (spec.pool_of gates) }
    ensures counted { result ≡ 12 + gates }
{
    FIRST + gates as u64
}

/// Puts the name of a member.
#[tactic(auto, unfolding(crate::specs::Pool::member_name))]
pub fn put_member(text: &mut Vec<u8>, member: u64) -> Result<(), Memory>
    ensures { OnOk result (text.new.items ≡ text.old.items ++ spec.member_name member) }
{
    if member < INPUTS as u64 {
        return put_numbered(text, b"i", member);
    }
    if member < FIRST {
        return put_numbered(text, b"q", member - INPUTS as u64);
    }
    put_numbered(text, b"g", member - FIRST)
}

/// Puts a letter and a number.
pub fn put_numbered(text: &mut Vec<u8>, letter: &[u8], number: u64) -> Result<(), Memory>
    ensures { OnOk result (text.new.items ≡ text.old.items ++ (letter.now ++ decimal number)) }
{
    put(text, letter)?;
    put_number(text, number)
}
