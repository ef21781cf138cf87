//! The keywords and marks that the grammar quotes.

ghost use Rattle.std.specs.Prelude.{◌≡◌};
ghost use Rattle.netlist_grammar.specs.Lexemes.{code};

/// A keyword or a mark that the grammar quotes, apart from the kinds of gates.
#[derive(Clone, Copy, Debug, PartialEq, Eq)]
pub enum Fixed {
    Module,
    Endmodule,
    Input,
    Output,
    Wire,
    Tri,
    Supply0,
    Supply1,
    Reg,
    Assign,
    Specify,
    Endspecify,
    Primitive,
    Endprimitive,
    Table,
    Endtable,
    Initial,
    Open,
    Close,
    SquareOpen,
    SquareClose,
    BraceOpen,
    BraceClose,
    Comma,
    Semi,
    Colon,
    Equals,
    Dot,
    Hash,
    Star,
}

impl Fixed {
    /// Its number among them.
    pub fn code(self) -> u8
        ensures { result ≡ code self }
    {
        self as u8
    }
}
