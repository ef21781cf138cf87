//! Scopes and variables of a recording.

use crate::bytes::take;
use crate::ranges::last_bracket;
use base_lists::Items;

/// A scope: the position of the scope that it is in, and its name.
#[derive(Drop)]
pub struct Scope {
    pub parent: u32,
    pub name: Items<u8>,
}

/// A variable. `scope` is a position in the recording's scopes. `reference` is the text as recorded: with its range
/// where that stands directly after it, as `direct` says. A range `[i]` is (i, i). `width` is 1 to 2^20.
#[derive(Debug, Drop)]
pub struct Variable {
    pub scope: u32,
    pub reference: Items<u8>,
    pub range: Option<(u32, u32)>,
    pub direct: bool,
    pub width: u32,
}

impl Variable {
    ghost use Rattle.std.specs.Prelude.{◌≡◌};
    ghost use Rattle.recording_reader.specs.Bytes.{without_range};

    /// The reference without a range directly after it.
    pub fn bare_reference(&self) -> &[u8]
        ensures { result.now ≡ without_range self.now.direct self.now.reference }
    {
        let reference = self.reference.as_slice();
        if self.direct {
            take(reference, last_bracket(reference))
        } else {
            reference
        }
    }
}
