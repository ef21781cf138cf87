//! The lines of a case file.

ghost use Rattle.std.specs.Prelude.{◌≡◌, ◌≢◌, ◌⊎◌, ◌∷◌, ◌++◌, [], ℕ, List, IsTrue, MatchOption, length};
ghost use Rattle.test_cases.specs.Lines.{IsNote, Lacks, LineBreak};

/// A line of a case file, without its end, and its number, counted from 1.
#[derive(Clone, Copy)]
pub struct Line<'a> {
    pub number: usize,
    pub text: &'a [u8],
}

impl<'a> Line<'a> {
    /// Nothing stands on the line, or it begins with a `#` and a space.
    pub fn is_idle(&self) -> bool
        ensures empty { self.now.text.now ≡ [] → IsTrue result }
        ensures note { IsNote self.now.text.now → IsTrue result }
        ensures idle { IsTrue result → (self.now.text.now ≡ []) ⊎ IsNote self.now.text.now }
    {
        self.text.is_empty() || self.text.starts_with(b"# ")
    }

    /// What stands behind this mark at the line's head.
    pub fn behind(&self, mark: &[u8]) -> Option<&'a [u8]>
        ensures { let line = self.now.text.now in
            MatchOption result (Lacks mark.now line) (λ rest. line ≡ mark.now ++ rest.now) }
    {
        self.text.strip_prefix(mark)
    }
}

/// The lines of a text that are left.
#[derive(Clone, Copy)]
pub struct Lines<'a> {
    rest: &'a [u8],
    number: usize,
}

impl<'a> Lines<'a> {
    ghost use Rattle.test_cases.specs.Left.{lines_left};

    /// All lines of a text.
    pub fn new(text: &'a [u8]) -> Lines<'a>
        ensures { lines_left result ≡ length text.now }
    {
        Lines {
            rest: text,
            number: 1,
        }
    }
}

impl<'a> Iterator for Lines<'a> {
    type Item = Line<'a>;

    ghost use Rattle.std.specs.Iterator.{at_most};
    ghost use Rattle.test_cases.specs.Left.{lines_left};

    ghost remaining = { λ lines. at_most (lines_left lines) };

    fn next(&mut self) -> Option<Line<'a>> {
        if self.rest.is_empty() {
            return None;
        }
        let (text, rest) = split_line(self.rest);
        let number = self.number;
        self.rest = rest;
        self.number = number.saturating_add(1);
        Some(Line { number, text })
    }
}

/// The first line of a text, and what stands behind its end.
fn split_line(text: &[u8]) -> (&[u8], &[u8])
    requires { length text.now ≢ 0 }
    ensures { LineBreak text.now result.0.now result.1.now }
{
    match text.iter().position(|byte| *byte == b'\n') {
        Some(at) => (&text[..at], &text[at + 1..]),
        None => (text, &text[text.len()..]),
    }
}
