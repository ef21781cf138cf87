//! A token and its bytes.

ghost use Rattle.std.specs.Prelude.{◌<◌, length};

use crate::kind::{is_name_kind, name_in};
use netlist_tokens::Token;

/// A token and its bytes.
#[derive(Clone, Copy)]
pub struct Spelled<'t> {
    pub token: Token,
    pub bytes: &'t [u8],
    ghost some: { 0 < length bytes.now },
}

impl<'t> Spelled<'t> {
    ghost use Rattle.std.specs.Prelude.{◌≡◌, List, ℕ};
    ghost use Rattle.netlist_trim.specs.Shown.{seen};
    ghost use Rattle.netlist_trim.specs.Definition.{closes, ends_item, is, is_name, spelled_name, opens};

    /// Its first byte in the text.
    pub fn start(self) -> usize
        ensures { result ≡ self.entry.token.start }
    {
        self.token.start
    }

    /// The byte after its last.
    pub fn end(self) -> usize
        ensures { result ≡ self.entry.token.«end» }
    {
        self.token.end
    }

    /// Whether it is a name, plain or escaped.
    pub fn is_name(self) -> bool
        ensures { result ≡ is_name (seen self.entry) }
    {
        is_name_kind(self.token.kind)
    }

    /// The name that it is.
    pub fn name(self) -> &'t [u8]
        ensures { result.now ≡ spelled_name (seen self.entry) }
    {
        name_in(self.token.kind, self.bytes)
    }

    /// Whether it opens a definition.
    pub fn opens(self) -> bool
        ensures { result ≡ opens (seen self.entry) }
    {
        self.is(b"module") || self.is(b"macromodule") || self.is(b"primitive")
    }

    /// Whether it closes what a token opens.
    pub fn closes(self, opening: Spelled<'t>) -> bool
        ensures { result ≡ closes (seen opening.entry) (seen self.entry) }
    {
        if opening.is(b"primitive") {
            self.is(b"endprimitive")
        } else {
            self.is(b"endmodule")
        }
    }

    /// Whether an item ends with it, after the token before.
    pub fn ends_item(self, before: Spelled<'t>) -> bool
        ensures { result ≡ ends_item (seen before.entry) (seen self.entry) }
    {
        self.is(b";") || self.is(b"endspecify") || (before.is(b"*") && self.is(b")"))
    }

    fn is(self, word: &[u8]) -> bool
        ensures { result ≡ is word.now (seen self.entry) }
    {
        self.bytes == word
    }
}
