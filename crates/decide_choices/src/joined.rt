//! Choices of a table from those of its halves.

ghost use Rattle.std.specs.Prelude.{◌≡◌, ◌<◌, ◌≤◌, ◌^◌, OnOk, length};
ghost use Rattle.std.specs.List.{All};
ghost use Rattle.decide_choices.specs.Choices.{IsAmong};
ghost use Rattle.decide_choices.specs.Halves.{AreAdded};

use crate::choice::{Choice, Choices};
use crate::halves::forces;
use base_lists::Memory;
use design_cell::Value;

/// Adds those choices of a half that don't force the bit in the other half, each with a bit for the last argument.
pub fn add_alone(
    choices: &mut Choices,
    found: &[Choice],
    other: &[Value],
    count: usize,
    bit: bool,
    last: bool,
) -> Result<(), Memory>
    requires few { count < 13 }
    requires long { length other.now ≡ 2 ^ count }
    requires among { All (IsAmong count) found.now }
    ensures { OnOk result (AreAdded other.now count bit last choices.old.items found.now choices.new.items) }
{
    'found: for choice in found {
        if !forces(other, count, *choice, bit) {
            choices.push(choice.with_argument(count, last))?;
        }
    }
    Ok(())
}
