//! Kinds of bytes.

ghost use Rattle.std.specs.Prelude.{◌≡◌, bytes_eq};
ghost use Rattle.base_scan.specs.Bytes as spec;

/// Space, tab, newline, carriage return or form feed.
pub fn is_white(byte: u8) -> bool
    ensures { result ≡ spec.is_white byte }
{
    byte == b' ' || byte == b'\t' || byte == b'\n' || byte == b'\r' || byte == 12
}

/// One of `0` to `9`.
pub fn is_digit(byte: u8) -> bool
    ensures { result ≡ spec.is_digit byte }
{
    b'0' <= byte && byte <= b'9'
}

// digits = "0".."9" { "0".."9" }
/// Whether a word is one or more digits.
pub fn are_digits(word: &[u8]) -> bool
    ensures { result ≡ spec.are_digits word.now }
{
    0 < word.len() && all_digits(word)
}

/// Whether there are digits alone.
pub fn all_digits(word: &[u8]) -> bool
    ensures { result ≡ spec.all_digits word.now }
{
    word.iter().all(|byte| is_digit(*byte))
}

/// Whether it is this word.
pub fn is_word(text: &[u8], word: &[u8]) -> bool
    ensures { result ≡ bytes_eq text.now word.now }
{
    text == word
}
