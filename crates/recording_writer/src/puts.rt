//! Lines of sections put at the end of a text.

ghost use Rattle.std.specs.Prelude.{◌≡◌, ◌++◌, OnOk, codes};
ghost use Rattle.base_lists.specs.Text.{line};

use base_lists::{Memory, put};

/// The line of a section with one word in it.
pub fn put_section(text: &mut Vec<u8>, keyword: &[u8], word: &[u8]) -> Result<(), Memory>
    ensures { OnOk result (text.new.items ≡ text.old.items ++ line (keyword.now ++ word.now ++ codes " $end")) }
{
    put(text, keyword)?;
    put(text, word)?;
    put(text, b" $end\n")
}
