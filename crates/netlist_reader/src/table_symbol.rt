//! The symbols that tokens have in the table of a primitive.

ghost use Rattle.std.specs.Prelude.{◌∷◌, []};
ghost use Rattle.netlist_grammar.specs.Lexemes as spec;
ghost use Rattle.netlist_reader.specs.Shown.{AreSymbols};

use netlist_grammar::Fixed;

/// The bytes of a token, the first one and those after it.
pub fn first_byte<'a>(text: &'a [u8]) -> Option<(u8, &'a [u8])>
    ensures { AreSymbols text.now result }
{
    match text {
        [first, rest @ ..] => Some((*first, rest)),
        [] => None,
    }
}

/// The byte of a mark.
pub fn only_byte(byte: u8) -> Option<(u8, &'static [u8])>
    ensures { AreSymbols (byte ∷ []) result }
{
    Some((byte, b"".as_slice()))
}

/// A mark that the grammar quotes, as a symbol.
pub fn fixed_symbol(fixed: Fixed) -> Option<(u8, &'static [u8])>
    ensures { AreSymbols (spec.fixed_symbols fixed) result }
{
    let byte = match fixed {
        Fixed::SquareOpen => b'[',
        Fixed::SquareClose => b']',
        Fixed::BraceOpen => b'{',
        Fixed::BraceClose => b'}',
        Fixed::Comma => b',',
        Fixed::Equals => b'=',
        Fixed::Dot => b'.',
        Fixed::Hash => b'#',
        Fixed::Star => b'*',
        _ => return None,
    };
    only_byte(byte)
}
