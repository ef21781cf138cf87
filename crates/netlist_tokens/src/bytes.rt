//! Kinds of bytes.

ghost use Rattle.std.specs.Prelude.{◌≡◌, ◌==◌, ◌≤◌, length};
ghost use Rattle.std.specs.Bool.{OnTrue};
ghost use Rattle.netlist_tokens.specs.Byte as spec;
ghost use Rattle.netlist_tokens.specs.Scan as scan;

/// The bytes that a run goes on with.
#[derive(Clone, Copy)]
pub enum Class {
    Name,
    Number,
    Printable,
    /// All but newline.
    Line,
}

impl Class {
    #[inline(always)]
    pub fn has(self, byte: u8) -> bool
        ensures { result ≡ scan.passes self byte }
    {
        match self {
            Class::Name => is_name_byte(byte),
            Class::Number => is_number_byte(byte),
            Class::Printable => is_printable(byte),
            Class::Line => byte != b'\n',
        }
    }
}

/// Space, tab, newline, carriage return or form feed.
#[inline]
pub fn is_white(byte: u8) -> bool
    ensures { result ≡ spec.is_white byte }
{
    byte == b' ' || byte == b'\t' || byte == b'\n' || byte == b'\r' || byte == 12
}

/// A letter or `_`.
#[inline]
pub fn is_letter(byte: u8) -> bool
    ensures { result ≡ spec.is_letter byte }
{
    (b'a' <= byte && byte <= b'z') || (b'A' <= byte && byte <= b'Z') || byte == b'_'
}

#[inline]
pub fn is_digit(byte: u8) -> bool
    ensures { result ≡ spec.is_digit byte }
{
    b'0' <= byte && byte <= b'9'
}

/// A byte 33 to 126.
#[inline]
pub fn is_printable(byte: u8) -> bool
    ensures { result ≡ spec.is_printable byte }
{
    33 <= byte && byte <= 126
}

/// A byte of a plain name behind its first: a letter, `_`, a digit or `$`.
#[inline]
pub fn is_name_byte(byte: u8) -> bool
    ensures { result ≡ spec.is_name_byte byte }
{
    is_letter(byte) || is_digit(byte) || byte == b'$'
}

#[inline]
fn is_number_byte(byte: u8) -> bool
    ensures { result ≡ spec.is_number_byte byte }
{
    is_letter(byte) || is_digit(byte) || byte == b'\''
}

/// Whether the first byte is a star.
#[inline]
pub fn begins_star(bytes: &[u8]) -> bool
    ensures { result ≡ spec.begins (λ b. b == 42) bytes.now }
{
    match bytes {
        [b, ..] => *b == b'*',
        [] => false,
    }
}

/// Whether a backquote stands here, before a letter or `_`.
#[inline]
pub fn begins_directive(bytes: &[u8]) -> bool
    ensures value { result ≡ scan.begins_directive bytes.now }
    ensures some { OnTrue result (1 ≤ length bytes.now) }
{
    match bytes {
        [b, after @ ..] => *b == b'`' && begins_letter(after),
        [] => false,
    }
}

#[inline]
fn begins_letter(bytes: &[u8]) -> bool
    ensures { result ≡ spec.begins spec.is_letter bytes.now }
{
    match bytes {
        [b, ..] => is_letter(*b),
        [] => false,
    }
}

/// Whether the first byte is one of 33 to 126.
#[inline]
pub fn begins_printable(bytes: &[u8]) -> bool
    ensures { result ≡ spec.begins spec.is_printable bytes.now }
{
    match bytes {
        [b, ..] => is_printable(*b),
        [] => false,
    }
}
