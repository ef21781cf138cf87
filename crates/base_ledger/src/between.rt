//! The part of a slice between two neighbours of a list of bounds.

ghost use Rattle.std.specs.Prelude.{◌≡◌, length};
ghost use Rattle.base_ledger.specs.Ledger.{AreBoundsAt, part_between};

use crate::change::Change;

/// The changes of one of the steps that begin at the bounds.
pub fn changes_between<'a>(changes: &'a [Change], starts: &[usize], step: usize) -> &'a [Change]
    requires { AreBoundsAt (length changes.now) starts.now step }
    ensures { result.now ≡ part_between changes.now starts.now step }
{
    &changes[starts[step]..starts[step + 1]]
}
