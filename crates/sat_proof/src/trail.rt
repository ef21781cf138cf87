//! The trail: which literals are held false, and in which order they came. One more or one less takes constant time.

ghost use Rattle.std.specs.Prelude.{◌≡◌, ◌≤◌, ◌<◌, false, length, slice_set, IfOk};
ghost use Rattle.sat_proof.specs.Code.{code_of, AreClear, AreInStep, AreInStep-prop, HasRoom, IsConsistent, IsUnmarked};
ghost use Rattle.sat_proof.specs.Status.{literal_at, IsOpen};

use crate::code::{code, opposite};
use std::alloc::{AllocError, Global};

/// A mark for each literal that is held false, and the codes of these literals in order; those before `read` have been
/// propagated.
#[derive(Drop)]
pub struct Trail {
    pub marks: Vec<bool>,
    pub codes: Vec<usize>,
    pub len: usize,
    pub read: usize,
    pub ghost in_step: { AreInStep marks.items codes.items len } by { AreInStep-prop marks.items codes.items len },
}

impl Trail {
    ghost use Rattle.std.specs.Prelude.{List, Bool, true, neg_ℤ};
    ghost use Rattle.sat_proof.specs.Trail.{IsEmpty, IsPush, IsOver, StaysOver, IsRead, HasMarks, code_at};

    /// Room for as many codes, and nothing is held false. Takes nine bytes for each.
    pub fn new(alloc: Global, room: usize) -> Result<Trail, AllocError>
        ensures { IfOk result (λ trail. length trail.marks.items ≡ room) }
    {
        let marks = vec![in alloc; false; room]?;
        let codes = vec![in alloc; 0; room]?;
        Ok(Trail {
            marks,
            codes,
            len: 0,
            read: 0,
        })
    }

    /// Nothing is held false.
    pub fn clear(&mut self)
        ensures empty { IsEmpty self.new }
        ensures size { length self.new.marks.items ≡ length self.old.marks.items }
    {
        clear_marks(&mut self.marks);
        self.len = 0;
        self.read = 0;
    }

    /// The literal of this code is false.
    fn push(&mut self, code: usize)
        requires room { code < length self.old.marks.items }
        requires open { IsUnmarked self.old.marks.items code }
        requires consistent { IsConsistent (slice_set self.old.marks.items code true) }
        ensures over { StaysOver self.old self.new }
        ensures pushed { IsPush self.old self.new code }
    {
        self.marks[code] = true;
        self.codes[self.len] = code;
        self.len += 1;
    }

    /// The literal at a place is false.
    pub fn deny(&mut self, literals: &[i32], k: usize)
        requires below { k < length literals.now }
        requires room { HasMarks self.old literals.now }
        requires open { IsOpen self.old.marks.items (literal_at literals.now k) }
        ensures over { StaysOver self.old self.new }
        ensures pushed { IsPush self.old self.new (code_of (literal_at literals.now k)) }
    {
        self.push(code(literals[k]));
    }

    /// The literal at a place is true.
    pub fn affirm(&mut self, literals: &[i32], k: usize)
        requires below { k < length literals.now }
        requires room { HasRoom (length self.old.marks.items) (literal_at literals.now k) }
        requires open { IsOpen self.old.marks.items (literal_at literals.now k) }
        ensures over { StaysOver self.old self.new }
        ensures pushed { IsPush self.old self.new (code_of (neg_ℤ (literal_at literals.now k))) }
    {
        self.push(opposite(literals[k]));
    }

    /// The code that is to be read next.
    pub fn next_code(&mut self) -> usize
        requires { self.old.read < self.old.len }
        ensures value { result ≡ code_at self.old self.old.read }
        ensures below { result < length self.old.marks.items }
        ensures read { IsRead self.old self.new }
    {
        let code = self.codes[self.read];
        self.read += 1;
        code
    }

    /// Only the first `len` codes stay, all of them read.
    pub fn undo(&mut self, len: usize)
        requires { len ≤ self.old.len }
        ensures marks { (base : List Bool) → IsOver base len self.old → self.new.marks.items ≡ base }
        ensures codes { self.new.codes.items ≡ self.old.codes.items }
        ensures len { self.new.len ≡ len }
        ensures read { self.new.read ≡ len }
    {
        while self.len > len {
            self.len -= 1;
            self.marks[self.codes[self.len]] = false;
        }
        self.read = len;
    }
}

fn clear_marks(marks: &mut [bool])
    ensures { AreClear marks.new }
{
    for mark in marks.iter_mut() {
        *mark = false;
    }
}
