//! Words of declarations.

ghost use Rattle.std.specs.Prelude.{◌≡◌};
ghost use Rattle.netlist_trim.specs.Definition as definition;
ghost use Rattle.netlist_trim.specs.Shown.{seen};
ghost use Rattle.netlist_stub_read.specs.Words as spec;

use netlist_trim::Spelled;

/// What a token is before a name that is declared.
#[derive(Clone, Copy)]
pub enum Word {
    /// `input`, `output` or `inout`.
    Direction,
    /// `parameter` or `localparam`.
    Parameter,
    /// A type whose values aren't worked out.
    Real,
    /// `integer`.
    Integer,
    /// Another type, or a sign.
    Plain,
    /// `[`.
    Bracket,
    /// A name.
    Name,
    /// Anything else.
    Other,
}

/// What a token is before a name that is declared.
pub fn word_of(token: Spelled<'_>) -> Word
    ensures { result ≡ spec.word_of (seen token.entry) }
{
    if is_direction(token) {
        Word::Direction
    } else if is_parameter(token) {
        Word::Parameter
    } else if is_real(token) {
        Word::Real
    } else if is(token, b"integer") {
        Word::Integer
    } else if is_plain(token) {
        Word::Plain
    } else if is(token, b"[") {
        Word::Bracket
    } else if token.is_name() {
        Word::Name
    } else {
        Word::Other
    }
}

/// A direction of a port.
pub fn is_direction(token: Spelled<'_>) -> bool
    ensures { result ≡ spec.is_direction (seen token.entry) }
{
    is(token, b"input") || is(token, b"output") || is(token, b"inout")
}

pub fn is_parameter(token: Spelled<'_>) -> bool
    ensures { result ≡ spec.is_parameter (seen token.entry) }
{
    is(token, b"parameter") || is(token, b"localparam")
}

fn is_real(token: Spelled<'_>) -> bool
    ensures { result ≡ spec.is_real (seen token.entry) }
{
    is(token, b"real") || is(token, b"realtime") || is(token, b"time")
}

/// A type that leaves a port's range and a parameter's value as they are.
fn is_plain(token: Spelled<'_>) -> bool
    ensures { result ≡ spec.is_plain (seen token.entry) }
{
    is_net_type(token) || is_variable_type(token) || is_sign(token)
}

fn is_net_type(token: Spelled<'_>) -> bool
    ensures { result ≡ spec.is_net_type (seen token.entry) }
{
    is_wire(token) || is_wired(token) || is_tri(token)
}

fn is_wire(token: Spelled<'_>) -> bool
    ensures { result ≡ spec.is_wire (seen token.entry) }
{
    is(token, b"wire") || is(token, b"uwire") || is(token, b"supply0") || is(token, b"supply1")
}

fn is_wired(token: Spelled<'_>) -> bool
    ensures { result ≡ spec.is_wired (seen token.entry) }
{
    is(token, b"wand") || is(token, b"wor") || is(token, b"triand") || is(token, b"trior")
}

fn is_tri(token: Spelled<'_>) -> bool
    ensures { result ≡ spec.is_tri (seen token.entry) }
{
    is(token, b"tri") || is(token, b"tri0") || is(token, b"tri1")
}

fn is_variable_type(token: Spelled<'_>) -> bool
    ensures { result ≡ spec.is_variable_type (seen token.entry) }
{
    is(token, b"reg") || is(token, b"logic") || is(token, b"var") || is(token, b"bit")
}

fn is_sign(token: Spelled<'_>) -> bool
    ensures { result ≡ spec.is_sign (seen token.entry) }
{
    is(token, b"signed") || is(token, b"unsigned")
}

/// A function or a task, which declares for itself.
pub fn opens_routine(token: Spelled<'_>) -> bool
    ensures { result ≡ spec.opens_routine (seen token.entry) }
{
    is(token, b"function") || is(token, b"task")
}

pub fn closes_routine(token: Spelled<'_>) -> bool
    ensures { result ≡ spec.closes_routine (seen token.entry) }
{
    is(token, b"endfunction") || is(token, b"endtask")
}

/// A block, which may have parameters of its own.
pub fn opens_block(token: Spelled<'_>) -> bool
    ensures { result ≡ spec.opens_block (seen token.entry) }
{
    is(token, b"begin") || is(token, b"fork") || is(token, b"generate")
}

pub fn opens_bracket(token: Spelled<'_>) -> bool
    ensures { result ≡ spec.opens_bracket (seen token.entry) }
{
    is(token, b"(") || is(token, b"[") || is(token, b"{")
}

pub fn closes_bracket(token: Spelled<'_>) -> bool
    ensures { result ≡ spec.closes_bracket (seen token.entry) }
{
    is(token, b")") || is(token, b"]") || is(token, b"}")
}

/// Whether a token is spelled so.
pub fn is(token: Spelled<'_>, word: &[u8]) -> bool
    ensures { result ≡ definition.is word.now (seen token.entry) }
{
    token.bytes == word
}
