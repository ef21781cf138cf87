//! What was compared, and what of it failed.

ghost use Rattle.std.specs.Prelude.{◌≡◌, ◌++◌, ◌∷◌, [], Some, OnOk, IfOk, IsTrue, true, false, string_bytes, decimal};
ghost use Rattle.test_cases.specs.Compared.{ended, place_of};

use crate::line::{Line, Lines};
use std::alloc::{AllocError, Global};
use std::fmt;
use std::fmt::Write;

/// The cases of a file so far: how many came as wanted, and a line for each fact that didn't.
#[derive(Drop)]
pub struct Report {
    alloc: Global,
    name: String,
    agreed: u64,
    differs: bool,
    failed: String,
}

impl Report {
    /// No case so far. Keeps a copy of the file's name.
    pub fn new(alloc: Global, name: &str) -> Result<Report, AllocError>
        ensures name { IfOk result (λ report. string_bytes report.name ≡ name.now) }
        ensures agreed { IfOk result (λ report. report.agreed ≡ 0) }
        ensures differs { IfOk result (λ report. report.differs ≡ false) }
        ensures failed { IfOk result (λ report. string_bytes report.failed ≡ []) }
    {
        Ok(Report {
            alloc,
            name: String::from_str(alloc, name)?,
            agreed: 0,
            differs: false,
            failed: String::new(alloc),
        })
    }

    /// Compares what came with what must come, which begins on this line of the file.
    ///
    /// Where they differ, the report has the first line that does, as `NAME:LINE: want W, got G`.
    pub fn compare(&mut self, line: usize, want: &[u8], got: &[u8]) -> Result<(), AllocError>
        ensures agrees { want.now ≡ got.now → self.new ≡ self.old }
        ensures differs { OnOk result ((want.now ≡ got.now → ⊥) → self.new.differs ≡ true) }
        ensures kept { IsTrue self.old.differs → IsTrue self.new.differs }
        ensures agreed { self.new.agreed ≡ self.old.agreed }
        ensures name { self.new.name ≡ self.old.name }
    {
        if want == got {
            return Ok(());
        }
        self.differs = true;
        let (number, want, got) = first_difference(line, want, got);
        self.note(number, want, got)
    }

    /// Notes a fact that didn't come as wanted.
    fn note(
        &mut self,
        line: usize,
        want: Option<&[u8]>,
        got: Option<&[u8]>,
    ) -> Result<(), AllocError>
        ensures differs { self.new.differs ≡ self.old.differs }
        ensures agreed { self.new.agreed ≡ self.old.agreed }
        ensures name { self.new.name ≡ self.old.name }
    {
        write!(self.failed, "{}:{line}: want ", self.name)?;
        put_shown(&mut self.failed, want)?;
        self.failed.push_str(", got ")?;
        put_shown(&mut self.failed, got)?;
        self.failed.push('\n')
    }

    /// Ends a case: it counts where all that was compared since the last end came as wanted.
    pub fn end_case(&mut self)
        ensures agreed { self.new.agreed ≡ ended self.old.differs self.old.agreed }
        ensures differs { self.new.differs ≡ false }
        ensures failed { self.new.failed ≡ self.old.failed }
        ensures name { self.new.name ≡ self.old.name }
    {
        if !self.differs {
            self.agreed = self.agreed.saturating_add(1);
        }
        self.differs = false;
    }
}

impl fmt::Display for Report {
    ghost use Rattle.std.specs.Prelude.{◌++◌, ◌∷◌, [], Some, string_bytes, decimal};

    ghost output = { λ report.
        Some (string_bytes report.failed ++ (string_bytes report.name ++ 32 ∷ (decimal report.agreed ++ 10 ∷ []))) };

    fn fmt<W: fmt::Write>(&self, f: &mut fmt::Formatter<W>) -> fmt::Result {
        write!(f, "{}{} {}\n", self.failed, self.name, self.agreed)
    }
}

/// The first lines that differ, with their number; where only the last newline does, both texts.
fn first_difference<'w, 'g>(
    line: usize,
    want: &'w [u8],
    got: &'g [u8],
) -> (usize, Option<&'w [u8]>, Option<&'g [u8]>) {
    let mut came = Lines::new(got);
    for wanted in Lines::new(want) {
        let next = text_of(came.next());
        if next != Some(wanted.text) {
            return (line_at(line, wanted.number), Some(wanted.text), next);
        }
    }
    match came.next() {
        Some(more) => (line_at(line, more.number), None, Some(more.text)),
        None => (line, Some(want), Some(got)),
    }
}

fn text_of(line: Option<Line<'_>>) -> Option<&[u8]> {
    match line {
        Some(line) => Some(line.text),
        None => None,
    }
}

/// The number of a line, counted from 1, of a text that begins on this line.
fn line_at(first: usize, number: usize) -> usize
    ensures { result ≡ place_of first number }
{
    first.saturating_add(number.saturating_sub(1))
}

/// Puts a text where there is one: each byte that isn't printed as `\x0a`.
fn put_shown(shown: &mut String, text: Option<&[u8]>) -> Result<(), AllocError> {
    let Some(text) = text else {
        return shown.push_str("nothing");
    };
    for byte in text {
        put_byte(shown, *byte)?;
    }
    Ok(())
}

fn put_byte(shown: &mut String, byte: u8) -> Result<(), AllocError> {
    if byte.is_ascii_graphic() || byte == b' ' {
        return shown.push(char::from(byte));
    }
    write!(shown, "\\x{byte:02x}")
}
