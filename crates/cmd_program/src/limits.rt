//! The limits of decisions that a line names.

ghost use Rattle.std.specs.Prelude.{IfNone, IfSome};
ghost use Rattle.cmd_program.specs.Limits.{AreLimitsOf};
ghost use Rattle.base_line.specs.Read.{value_of};
ghost use Rattle.law_model.specs.declared.limits.Limits.{Limits as ALimits};
ghost use Rattle.wave_proved.specs.Contents.{AreLimits};

use base_line::Line;
use cmd_words::{conflicts_of, enumerated_of};
use law_model::Limits;

/// The limits that a line names.
pub fn limits_of(line: &Line<'_>) -> Option<Limits>
    ensures limits { IfSome result (AreLimitsOf (value_of line.now)) }
    ensures fit { IfSome result AreLimits }
    ensures none { IfNone result ((limits : ALimits) → AreLimitsOf (value_of line.now) limits → ⊥) }
{
    let conflicts = conflicts_of(line)?;
    let enumerated = enumerated_of(line)?;
    Some(Limits {
        conflicts,
        enumerated,
    })
}
