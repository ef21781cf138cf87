//! The next token of some bytes.

ghost use Rattle.std.specs.Prelude.{◌≡◌, ◌+◌, ◌<◌, ◌^◌, length, IfOk, IfSome, MatchResult, MatchOption, None, false};
ghost use Rattle.netlist_tokens.specs.Left.{ended, first, refused};
ghost use Rattle.netlist_tokens.specs.Scan as spec;
ghost use Rattle.netlist_tokens.specs.Scan.Step.{tell, refuse};

use crate::blank::skip_blanks;
use crate::bytes::{
    Class, begins_directive, begins_printable, begins_star, is_digit, is_letter, is_printable,
};
use crate::directive::directive;
use crate::ends::{run, unquote};
use crate::token::{Kind, LexErr, Token};

/// The next token, with the bytes after it.
pub fn next(bytes: &[u8], start: usize) -> Result<Option<(Token, &[u8])>, LexErr>
    requires { start + length bytes.now < 2 ^ 64 }
    ensures tells { MatchResult result
        (λ o. MatchOption o (spec.left start bytes.now ≡ ended)
        (λ r. spec.left start bytes.now ≡ first r.0 (spec.left r.0.end r.1.now)))
        (λ e. spec.left start bytes.now ≡ refused e) }
    ensures fits { IfOk result (λ o. IfSome o (λ r. r.0.end + length r.1.now ≡ start + length bytes.now)) }
{
    let mut rest = bytes;
    let mut at = start;
    'rest: loop {
        (rest, at) = skip_blanks(rest, at);
        if !begins_directive(rest) {
            return read(rest, at);
        }
        match directive(&rest[1..], at + 1) {
            Some((after, end)) => {
                rest = after;
                at = end;
            }
            None => return Err(LexErr::Directive { at }),
        }
    }
}

/// The token that begins here, where neither a blank nor a directive does, with the bytes after it.
fn read(rest: &[u8], at: usize) -> Result<Option<(Token, &[u8])>, LexErr>
    requires fits { at + length rest.now < 2 ^ 64 }
    requires no_blank { spec.blank at rest.now ≡ None }
    requires no_directive { spec.begins_directive rest.now ≡ false }
    ensures tells { MatchResult result
        (λ o. MatchOption o (spec.left at rest.now ≡ ended)
        (λ r. spec.left at rest.now ≡ first r.0 (spec.left r.0.end r.1.now)))
        (λ e. spec.left at rest.now ≡ refused e) }
    ensures fits { IfOk result (λ o. IfSome o (λ r. r.0.end + length r.1.now ≡ at + length rest.now)) }
{
    if rest.is_empty() {
        return Ok(None);
    }
    match token(rest[0], &rest[1..], at) {
        Ok((token, after)) => Ok(Some((token, after))),
        Err(refusal) => Err(refusal),
    }
}

/// The token that begins with a byte, with the bytes after it.
fn token(byte: u8, after: &[u8], at: usize) -> Result<(Token, &[u8]), LexErr>
    requires { at + 1 + length after.now < 2 ^ 64 }
    ensures reads { MatchResult result
        (λ r. spec.read at byte after.now ≡ tell r.0 r.1.now)
        (λ e. spec.read at byte after.now ≡ refuse e) }
    ensures fits { IfOk result (λ r. r.0.end + length r.1.now ≡ at + 1 + length after.now) }
{
    if is_letter(byte) {
        Ok(run_token(Kind::Name, Class::Name, after, at))
    } else if is_digit(byte) {
        Ok(run_token(Kind::Number, Class::Number, after, at))
    } else if byte == b'"' {
        text(after, at)
    } else if byte == b'/' && begins_star(after) {
        Err(LexErr::OpenComment { at })
    } else if byte == b'\\' && begins_printable(after) {
        Ok(run_token(Kind::Escaped, Class::Printable, after, at))
    } else if is_printable(byte) {
        let token = Token {
            kind: Kind::Mark,
            start: at,
            end: at + 1,
        };
        Ok((token, after))
    } else {
        Err(LexErr::BadByte { at })
    }
}

/// The token of a byte and as many of a class after it.
#[inline]
fn run_token(kind: Kind, class: Class, after: &[u8], at: usize) -> (Token, &[u8])
    requires { at + 1 + length after.now < 2 ^ 64 }
    ensures reads { spec.tell_class kind class at after.now ≡ tell result.0 result.1.now }
    ensures fits { result.0.end + length result.1.now ≡ at + 1 + length after.now }
{
    let (rest, end) = run(after, at + 1, class);
    let token = Token {
        kind,
        start: at,
        end,
    };
    (token, rest)
}

/// The text whose first `"` is at `at`.
fn text(after: &[u8], at: usize) -> Result<(Token, &[u8]), LexErr>
    requires { at + 1 + length after.now < 2 ^ 64 }
    ensures reads { MatchResult result
        (λ r. spec.text_or at (spec.after_quote 34 (at + 1) after.now) ≡ tell r.0 r.1.now)
        (λ e. spec.text_or at (spec.after_quote 34 (at + 1) after.now) ≡ refuse e) }
    ensures fits { IfOk result (λ r. r.0.end + length r.1.now ≡ at + 1 + length after.now) }
{
    match unquote(after, at + 1) {
        Some((rest, end)) => {
            let token = Token {
                kind: Kind::Text,
                start: at,
                end,
            };
            Ok((token, rest))
        }
        None => Err(LexErr::OpenText { at }),
    }
}
