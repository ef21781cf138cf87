//! A shelf in memory without faults.

ghost use Rattle.std.specs.Prelude.{◌≡◌, ℕ, List, length, true, OnOk, OnErr, IfOk, option_copied};
ghost use Rattle.base_shelf.specs.Shelf.{Created as CreatedFile, OpenStep, ReadStep, CreateStep, Writes, CloseStep};
ghost use Rattle.base_shelf.specs.Shelf.{PutStep, DiscardStep};
ghost use Rattle.base_shelf.specs.NamedFiles.{files_of};
ghost use Rattle.base_shelf.specs.PlainShelf.{empty_plain_shelf, plain_shelf_of, NeverFails, PlainRead, PutsPlainFile};

use crate::fault::IoErr;
use crate::in_hand::{InHand, opened_file};
use crate::named_files::NamedFiles;
use crate::shelf::Shelf;
use base_lists::Memory;
use std::alloc::Global;
use std::marker::Model;

/// Files in memory. No call fails but for want of memory, a call moves all that it is asked for, and a file that isn't
/// there is read as an empty one.
#[derive(Drop)]
pub struct PlainShelf {
    alloc: Global,
    files: NamedFiles,
    written: NamedFiles,
    hand: InHand,
}

impl Model for PlainShelf {
    ghost use Rattle.base_shelf.specs.PlainShelf.{PlainShelfView, plainly_seen};

    ghost Value = { PlainShelfView };

    ghost view = { λ s. plainly_seen s.files s.written s.hand };
}

impl PlainShelf {
    /// No file, and none in hand.
    pub fn new(alloc: Global) -> PlainShelf
        ensures { result ≡ empty_plain_shelf }
    {
        PlainShelf {
            alloc,
            files: NamedFiles::new(alloc),
            written: NamedFiles::new(alloc),
            hand: InHand::Nothing,
        }
    }

    /// Adds or replaces a file, with a copy of the bytes. A file that is being read is read on as it was.
    pub fn put(&mut self, name: &str, bytes: &[u8]) -> Result<(), Memory>
        ensures ok { OnOk result (PutsPlainFile name.now bytes.now self.old self.new) }
        ensures err { OnErr result (self.new ≡ self.old) }
    {
        let copy = Vec::from_slice(self.alloc, bytes)?;
        self.files.set(name, copy)
    }

    /// The bytes of a file.
    pub fn get(&self, name: &str) -> Option<&[u8]>
        ensures { option_copied result ≡ files_of self.now.files name.now }
    {
        self.files.get(name)
    }
}

impl Shelf for PlainShelf {
    ghost use Rattle.base_shelf.specs.PlainShelf.{plain_shelf_of};

    ghost told = { true };

    ghost view = { plain_shelf_of };

    fn open_file(&mut self, name: &str) -> Result<(), IoErr>
        ensures step { OpenStep true name.now (plain_shelf_of self.old) (plain_shelf_of self.new) result }
        ensures never { NeverFails result }
    {
        self.hand = InHand::Nothing;
        let bytes = self.files.get(name).unwrap_or(b"");
        self.hand = opened_file(self.alloc, name, bytes)?;
        Ok(())
    }

    fn read(&mut self, buffer: &mut [u8]) -> Result<usize, IoErr>
        ensures step { ReadStep true (plain_shelf_of self.old) (plain_shelf_of self.new) buffer.new result }
        ensures exact { PlainRead self.old self.new buffer.old buffer.new result }
    {
        match &mut self.hand {
            InHand::Opened(_, reader) => Ok(reader.read(buffer.len(), buffer)),
            _ => Ok(0),
        }
    }

    fn create_file(&mut self, name: &str) -> Result<(), IoErr>
        ensures step { CreateStep true name.now (plain_shelf_of self.old) (plain_shelf_of self.new) result }
        ensures never { NeverFails result }
        ensures files { self.new.files ≡ self.old.files }
        ensures err { OnErr result (self.new.written ≡ self.old.written) }
    {
        self.hand = InHand::Nothing;
        let created = String::from_str(self.alloc, name)?;
        self.written.set(name, Vec::new(self.alloc))?;
        self.hand = InHand::Created(created);
        Ok(())
    }

    fn write(&mut self, bytes: &[u8]) -> Result<usize, IoErr>
        requires { (name : List ℕ) × (self.old.hand ≡ CreatedFile name) }
        ensures step { Writes true (plain_shelf_of self.old) (plain_shelf_of self.new) bytes.now result }
        ensures never { NeverFails result }
        ensures all { IfOk result (λ n. n ≡ length bytes.now) }
    {
        let InHand::Created(name) = &self.hand else {
            unreachable!()
        };
        self.written.append(name, bytes)?;
        Ok(bytes.len())
    }

    fn close_file(&mut self) -> Result<(), IoErr>
        ensures step { CloseStep (plain_shelf_of self.old) (plain_shelf_of self.new) result }
        ensures ok { OnErr result ⊥ }
    {
        self.hand = InHand::Nothing;
        Ok(())
    }

    fn put_file(&mut self, name: &str) -> Result<(), IoErr>
        ensures step { PutStep true name.now (plain_shelf_of self.old) (plain_shelf_of self.new) result }
        ensures never { NeverFails result }
        ensures err { OnErr result (self.new.files ≡ self.old.files) }
    {
        self.hand = InHand::Nothing;
        let bytes = self.written.get(name).unwrap_or(b"");
        let copy = Vec::from_slice(self.alloc, bytes)?;
        self.files.set(name, copy)?;
        Ok(())
    }

    fn discard(&mut self)
        ensures { DiscardStep (plain_shelf_of self.old) (plain_shelf_of self.new) }
    {
        self.hand = InHand::Nothing;
    }
}
