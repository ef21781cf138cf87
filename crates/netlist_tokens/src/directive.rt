//! Directives.

ghost use Rattle.std.specs.Prelude.{◌≡◌, ◌+◌, ◌<◌, ◌≤◌, ◌^◌, length, IfSome};
ghost use Rattle.netlist_tokens.specs.Scan.{wire as wire_of, directive as directive_of, IsBehind};
ghost use Rattle.netlist_tokens.specs.Tokens.{takes_line as spec_takes_line, stands_alone as spec_stands_alone};

use crate::blank::skip_blanks;
use crate::bytes::Class;
use crate::ends::run;

/// After a directive whose backquote stands before `bytes`, with the bytes and the place there. None where it isn't
/// read.
pub fn directive(bytes: &[u8], start: usize) -> Option<(&[u8], usize)>
    requires { start + length bytes.now < 2 ^ 64 }
    ensures reads { IsBehind (directive_of start bytes.now) result }
    ensures fits { IfSome result (λ r. r.1 + length r.0.now ≡ start + length bytes.now) }
    ensures onward { IfSome result (λ r. start ≤ r.1) }
{
    let (after, end) = run(bytes, start, Class::Name);
    let word = &bytes[..end - start];
    if takes_line(word) {
        Some(run(after, end, Class::Line))
    } else if stands_alone(word) {
        Some((after, end))
    } else if word == b"default_nettype".as_slice() {
        wire(after, end)
    } else {
        None
    }
}

fn takes_line(word: &[u8]) -> bool
    ensures { result ≡ spec_takes_line word.now }
{
    word == b"timescale".as_slice() || word == b"line".as_slice()
}

fn stands_alone(word: &[u8]) -> bool
    ensures { result ≡ spec_stands_alone word.now }
{
    word == b"celldefine".as_slice()
        || word == b"endcelldefine".as_slice()
        || word == b"resetall".as_slice()
}

/// After white space, comments and the name `wire`.
#[tactic(auto, using(crate::proofs::Wires::wire_stands))]
fn wire(bytes: &[u8], start: usize) -> Option<(&[u8], usize)>
    requires { start + length bytes.now < 2 ^ 64 }
    ensures reads { IsBehind (wire_of start bytes.now) result }
    ensures fits { IfSome result (λ r. r.1 + length r.0.now ≡ start + length bytes.now) }
    ensures onward { IfSome result (λ r. start ≤ r.1) }
{
    let (rest, at) = skip_blanks(bytes, start);
    let (after, end) = run(rest, at, Class::Name);
    let word = &rest[..end - at];
    if word == b"wire".as_slice() {
        Some((after, end))
    } else {
        None
    }
}
