//! Which tokens are names, and what names they are.

ghost use Rattle.std.specs.Prelude.{◌≡◌, ◌<◌, length};
ghost use Rattle.netlist_trim.specs.Definition as spec;

use netlist_tokens::Kind;

/// Plain and escaped names.
pub fn is_name_kind(kind: Kind) -> bool
    ensures { result ≡ spec.is_name_kind kind }
{
    match kind {
        Kind::Name => true,
        Kind::Escaped => true,
        Kind::Number => false,
        Kind::Text => false,
        Kind::Mark => false,
    }
}

/// A name's bytes, an escaped one's without the backslash.
pub fn name_in<'t>(kind: Kind, bytes: &'t [u8]) -> &'t [u8]
    requires { 0 < length bytes.now }
    ensures { result.now ≡ spec.name_in kind bytes.now }
{
    match kind {
        Kind::Name => bytes,
        Kind::Escaped => &bytes[1..],
        Kind::Number => bytes,
        Kind::Text => bytes,
        Kind::Mark => bytes,
    }
}
