//! Names that are plain, and bytes that are the same.

ghost use Rattle.std.specs.Prelude.{◌≡◌, bytes_eq};
ghost use Rattle.replay_code.specs.Names as names;

use netlist_tokens::{is_letter, is_name_byte};

/// Whether a text is a plain name: a letter or `_`, then letters, digits, `_`, `$`.
pub fn is_plain(name: &[u8]) -> bool
    ensures { result ≡ names.is_plain name.now }
{
    match name {
        [] => false,
        [first, ..] => is_letter(*first) && are_name_bytes(name),
    }
}

fn are_name_bytes(name: &[u8]) -> bool
    ensures { result ≡ names.are_name_bytes name.now }
{
    name.iter().all(|b| is_name_byte(*b))
}

pub fn are_same(text: &[u8], word: &[u8]) -> bool
    ensures { result ≡ bytes_eq text.now word.now }
{
    text == word
}
