//! The two kinds of text, and the lines that are passed over in each.

ghost use Rattle.std.specs.Prelude.{◌≡◌};
ghost use Rattle.sat_dimacs.specs.Grammar.{is_blank, is_idle};
ghost use Rattle.sat_dimacs.specs.Lines.{begins_passed, is_passed};

use base_scan::is_white;

/// What a text stands for.
#[derive(Clone, Copy, Debug, PartialEq, Eq)]
pub enum Kind {
    /// A formula.
    OfCnf,
    /// A log.
    OfLog,
}

impl Kind {
    /// Whether a line is passed over: its first byte is `c`, or `d` in a log.
    pub fn passes(self, line: &[u8]) -> bool
        ensures { result ≡ is_passed self line.now }
    {
        match line {
            [] => false,
            [b, ..] => self.begins_passed(*b),
        }
    }

    fn begins_passed(self, byte: u8) -> bool
        ensures { result ≡ begins_passed self byte }
    {
        match self {
            Kind::OfCnf => byte == b'c',
            Kind::OfLog => byte == b'c' || byte == b'd',
        }
    }
}

/// Whether a line may stand before the header: it is passed over, or blank.
pub fn is_idle(line: &[u8]) -> bool
    ensures { result ≡ is_idle line.now }
{
    Kind::OfCnf.passes(line) || is_blank(line)
}

fn is_blank(line: &[u8]) -> bool
    ensures { result ≡ is_blank line.now }
{
    line.iter().all(|b| is_white(*b))
}
