//! White space and comments.

ghost use Rattle.std.specs.Prelude.{◌≡◌, ◌+◌, ◌<◌, ◌≤◌, ◌^◌, length, IfSome, None};
ghost use Rattle.netlist_tokens.specs.Scan.{comment as comment_of, blank as blank_of, wire, left, IsBehind};

use crate::bytes::{Class, is_white};
use crate::ends::{close, run};

/// After all white space and comments. An open comment is left.
pub fn skip_blanks(bytes: &[u8], start: usize) -> (&[u8], usize)
    requires { start + length bytes.now < 2 ^ 64 }
    ensures tells { left start bytes.now ≡ left result.1 result.0.now }
    ensures wire { wire start bytes.now ≡ wire result.1 result.0.now }
    ensures all { blank_of result.1 result.0.now ≡ None }
    ensures fits { result.1 + length result.0.now ≡ start + length bytes.now }
    ensures onward { start ≤ result.1 }
{
    let mut rest = bytes;
    let mut at = start;
    'blanks: while let Some((after, end)) = blank(rest, at) {
        rest = after;
        at = end;
    }
    (rest, at)
}

/// After one byte of white space, or one comment.
#[inline]
fn blank(bytes: &[u8], start: usize) -> Option<(&[u8], usize)>
    requires { start + length bytes.now < 2 ^ 64 }
    ensures reads { IsBehind (blank_of start bytes.now) result }
    ensures fits { IfSome result (λ r. r.1 + length r.0.now ≡ start + length bytes.now) }
    ensures onward { IfSome result (λ r. start < r.1) }
{
    match bytes {
        [byte, after @ ..] => {
            if is_white(*byte) {
                Some((after, start + 1))
            } else if *byte == b'/' {
                comment(after, start + 1)
            } else {
                None
            }
        }
        [] => None,
    }
}

/// After a comment whose first `/` stands before `bytes`.
fn comment(bytes: &[u8], start: usize) -> Option<(&[u8], usize)>
    requires { start + length bytes.now < 2 ^ 64 }
    ensures reads { IsBehind (comment_of start bytes.now) result }
    ensures fits { IfSome result (λ r. r.1 + length r.0.now ≡ start + length bytes.now) }
    ensures onward { IfSome result (λ r. start ≤ r.1) }
{
    match bytes {
        [byte, after @ ..] => {
            if *byte == b'/' {
                Some(run(after, start + 1, Class::Line))
            } else if *byte == b'*' {
                close(after, start + 1)
            } else {
                None
            }
        }
        [] => None,
    }
}
