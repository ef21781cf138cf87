//! A number of gates.

ghost use Rattle.std.specs.Prelude.{◌≤◌, ℕ, Some, IfSome, IfNone};
ghost use Rattle.cmd_program.specs.Make.{IsNumberTo};

use base_line::number_in;

/// The most gates.
const MOST_GATES: u64 = 100_000;

/// The number of gates that a text says, none where it says none that may be made.
pub fn gates_in(text: &str) -> Option<u32>
    ensures gates { IfSome result (IsNumberTo (Some text.now) 100000) }
    ensures few { IfSome result (λ gates. gates ≤ 100000) }
    ensures none { IfNone result ((gates : ℕ) → IsNumberTo (Some text.now) 100000 gates → ⊥) }
{
    let number = number_in(text)?;
    if number > MOST_GATES {
        return None;
    }
    Some(number as u32)
}
