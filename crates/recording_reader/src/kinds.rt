//! What a word is.

ghost use Rattle.std.specs.Prelude.{◌≡◌};
ghost use Rattle.recording_reader.specs.Kinds.{declaration_kind, keyword_kind, kind_of};

use crate::bytes::{is_end, is_value};
use base_scan::is_word;

/// The kinds of words that the grammar tells apart.
#[derive(Clone, Copy)]
pub enum Kind {
    Scalar,
    Vector,
    Real,
    Time,
    End,
    Comment,
    Dump,
    Off,
    Var,
    Scope,
    Upscope,
    Timescale,
    Note,
    Definitions,
    Other,
}

/// The kind of a word, by its first byte or as a keyword.
pub fn kind_of(text: &[u8]) -> Kind
    ensures { result ≡ kind_of text.now }
{
    match text {
        [] => Kind::Other,
        [b, ..] => {
            let b = *b;
            if is_value(b) {
                Kind::Scalar
            } else if b == b'#' {
                Kind::Time
            } else if b == b'b' || b == b'B' {
                Kind::Vector
            } else if b == b'$' {
                keyword_kind(text)
            } else if b == b'r' || b == b'R' {
                Kind::Real
            } else {
                Kind::Other
            }
        }
    }
}

fn keyword_kind(text: &[u8]) -> Kind
    ensures { result ≡ keyword_kind text.now }
{
    if is_end(text) {
        Kind::End
    } else if is_word(text, b"$comment") {
        Kind::Comment
    } else if is_word(text, b"$dumpvars") || is_word(text, b"$dumpall") {
        Kind::Dump
    } else if is_word(text, b"$dumpoff") || is_word(text, b"$dumpon") {
        Kind::Off
    } else {
        declaration_kind(text)
    }
}

fn declaration_kind(text: &[u8]) -> Kind
    ensures { result ≡ declaration_kind text.now }
{
    if is_word(text, b"$var") {
        Kind::Var
    } else if is_word(text, b"$scope") {
        Kind::Scope
    } else if is_word(text, b"$upscope") {
        Kind::Upscope
    } else if is_word(text, b"$timescale") {
        Kind::Timescale
    } else if is_word(text, b"$date") || is_word(text, b"$version") {
        Kind::Note
    } else if is_word(text, b"$enddefinitions") {
        Kind::Definitions
    } else {
        Kind::Other
    }
}
