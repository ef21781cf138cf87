//! Codes in columns: what is read of a code that was found stands apart from its text, and close together.

ghost use Rattle.std.specs.Prelude.{◌≡◌, ◌<◌, [], ◌∷◌, ◌++◌, OnOk, OnErr, length, take, slice_index_or};
ghost use Rattle.recording_codes.specs.Code.{Code, code, with_kind_at};
ghost use Rattle.recording_codes.specs.Columns.{marked};

use base_lists::Memory;
use std::alloc::Global;
use std::marker::Model;

/// The width of a code, and whether some variable with it is skipped, and some listed.
#[derive(Clone, Copy)]
pub struct Mark {
    pub width: u32,
    pub skipped: bool,
    pub listed: bool,
}

/// Codes by number. A code takes 24 bytes, of which 8 are read where it is found.
#[derive(Drop)]
pub struct Columns<'a> {
    texts: Vec<&'a [u8]>,
    marks: Vec<Mark>,
}

impl<'a> Model for Columns<'a> {
    ghost use Rattle.std.specs.Prelude.{◌≡◌, List, length};
    ghost use Rattle.recording_codes.specs.Code.{Code};
    ghost use Rattle.recording_codes.specs.Columns.{codes_of};

    ghost Value = { List Code };

    ghost view = { λ c. codes_of c.texts.items c.marks.items };

    ghost invariant = { λ c. length c.texts.items ≡ length c.marks.items };
}

impl<'a> Columns<'a> {
    ghost use Rattle.std.specs.Prelude.{◌≡◌, ◌<◌, [], ◌∷◌, ◌++◌, OnOk, OnErr, length, take, slice_index_or};
    ghost use Rattle.recording_codes.specs.Code.{Code, code, with_kind_at};

    /// No codes.
    pub fn new(alloc: Global) -> Columns<'a>
        ensures { result ≡ [] }
    {
        Columns {
            texts: Vec::new(alloc),
            marks: Vec::new(alloc),
        }
    }

    pub fn len(&self) -> usize
        ensures { result ≡ length self.now }
    {
        self.marks.len()
    }

    /// What the code with this number is.
    pub fn mark(&self, number: usize) -> Mark
        requires { number < length self.now }
        ensures width { (d : Code) → result.width ≡ (slice_index_or self.now number d).width }
        ensures skipped { (d : Code) → result.skipped ≡ (slice_index_or self.now number d).skipped }
        ensures listed { (d : Code) → result.listed ≡ (slice_index_or self.now number d).listed }
    {
        self.marks[number]
    }

    /// A code after the others, of one variable.
    pub fn push(&mut self, text: &'a [u8], width: u32, skipped: bool) -> Result<(), Memory>
        ensures added { OnOk result (self.new ≡ self.old ++ code text.now width skipped ∷ []) }
        ensures err { OnErr result (self.new ≡ self.old) }
    {
        let count = self.texts.len();
        self.texts.push(text)?;
        let listed = !skipped;
        let mark = Mark {
            width,
            skipped,
            listed,
        };
        match self.marks.push(mark) {
            Ok(_) => Ok(()),
            Err(_) => {
                self.texts.truncate(count);
                Err(Memory)
            }
        }
    }

    /// One more variable of the code with this number.
    pub fn add_kind(&mut self, number: usize, skipped: bool)
        requires { number < length self.old }
        ensures { self.new ≡ with_kind_at self.old number skipped }
    {
        let old = self.marks[number];
        self.marks[number] = marked(old, skipped);
    }

    /// Keeps a given number of codes, at most as many as there are.
    pub fn truncate(&mut self, count: usize)
        ensures { self.new ≡ take count self.old }
    {
        self.texts.truncate(count);
        self.marks.truncate(count);
    }
}

/// The mark of a code with one more variable.
fn marked(mark: Mark, skipped: bool) -> Mark
    ensures { result ≡ marked mark skipped }
{
    if skipped {
        Mark {
            skipped: true,
            ..mark
        }
    } else {
        Mark {
            listed: true,
            ..mark
        }
    }
}
