//! Where runs of bytes, comments and texts end. Each answer is the bytes after it, and their place.

ghost use Rattle.std.specs.Prelude.{◌≡◌, ◌+◌, ◌<◌, ◌≤◌, ◌^◌, length, false, IfSome};
ghost use Rattle.netlist_tokens.specs.Scan.{passes, after, after_close, after_quote, rest as behind, IsBehind};

use crate::bytes::Class;

/// After as many bytes of a class as stand here.
#[inline]
pub fn run(bytes: &[u8], start: usize, class: Class) -> (&[u8], usize)
    requires { start + length bytes.now < 2 ^ 64 }
    ensures reads { after (passes class) start bytes.now ≡ behind result.1 result.0.now }
    ensures fits { result.1 + length result.0.now ≡ start + length bytes.now }
    ensures onward { start ≤ result.1 }
{
    let mut rest = bytes;
    let mut at = start;
    'bytes: while let [byte, after @ ..] = rest {
        if !class.has(*byte) {
            break;
        }
        rest = after;
        at += 1;
    }
    (rest, at)
}

/// After the first `*/`.
pub fn close(bytes: &[u8], start: usize) -> Option<(&[u8], usize)>
    requires { start + length bytes.now < 2 ^ 64 }
    ensures reads { IsBehind (after_close false start bytes.now) result }
    ensures fits { IfSome result (λ r. r.1 + length r.0.now ≡ start + length bytes.now) }
    ensures onward { IfSome result (λ r. start ≤ r.1) }
{
    let mut rest = bytes;
    let mut at = start;
    let mut starred = false;
    'bytes: while let [byte, after @ ..] = rest {
        rest = after;
        at += 1;
        if starred && *byte == b'/' {
            return Some((rest, at));
        }
        starred = *byte == b'*';
    }
    None
}

/// After the `"` that closes a text whose first `"` stands before `bytes`.
pub fn unquote(bytes: &[u8], start: usize) -> Option<(&[u8], usize)>
    requires { start + length bytes.now < 2 ^ 64 }
    ensures reads { IsBehind (after_quote 34 start bytes.now) result }
    ensures fits { IfSome result (λ r. r.1 + length r.0.now ≡ start + length bytes.now) }
    ensures onward { IfSome result (λ r. start ≤ r.1) }
{
    let mut rest = bytes;
    let mut at = start;
    let mut before = b'"';
    'bytes: while let [byte, after @ ..] = rest {
        rest = after;
        at += 1;
        if *byte == b'\n' {
            return None;
        }
        if *byte == b'"' && before != b'\\' {
            return Some((rest, at));
        }
        before = *byte;
    }
    None
}
