//! A shelf in memory, whose calls can be set to fail.

ghost use Rattle.std.specs.Prelude.{◌≡◌, ◌≤◌, ℕ, List, true, OnOk, OnErr, option_copied};
ghost use Rattle.base_shelf.specs.Shelf.{Created as CreatedFile, OpenStep, ReadStep, CreateStep, Writes, CloseStep};
ghost use Rattle.base_shelf.specs.Shelf.{PutStep, DiscardStep};
ghost use Rattle.base_shelf.specs.NamedFiles.{files_of};
ghost use Rattle.base_shelf.specs.Plan.{with_fault};
ghost use Rattle.base_shelf.specs.MemShelf.{empty_shelf, with_plan, shelf_of, PutsFile, MemOpen, MemRead, MemCreate};
ghost use Rattle.base_shelf.specs.MemShelf.{MemWrite, MemClose, MemPut};

use crate::fault::IoErr;
use crate::fault_count::FaultCount;
use crate::in_hand::{InHand, opened_file};
use crate::named_files::NamedFiles;
use crate::plan::Plan;
use crate::shelf::Shelf;
use base_lists::Memory;
use std::alloc::Global;
use std::marker::Model;
use std::mem;

/// Files in memory. It keeps one count of faults of reading and one of writing, which are those of every name.
#[derive(Drop)]
pub struct MemShelf {
    alloc: Global,
    piece: usize,
    files: NamedFiles,
    written: NamedFiles,
    hand: InHand,
    plan: Plan,
    read_faults: FaultCount,
    write_faults: FaultCount,
}

impl Model for MemShelf {
    ghost use Rattle.std.specs.Prelude.{◌≤◌};
    ghost use Rattle.base_shelf.specs.MemShelf.{MemShelfView, seen_of};

    ghost Value = { MemShelfView };

    ghost view = { λ s. seen_of s.piece s.files s.written s.hand s.plan s.read_faults s.write_faults };

    ghost invariant = { λ s. 1 ≤ s.piece };
}

impl MemShelf {
    /// No file, none in hand; it moves at most `piece` bytes a call.
    pub fn new(alloc: Global, piece: usize) -> MemShelf
        requires { 1 ≤ piece }
        ensures { result ≡ empty_shelf piece }
    {
        MemShelf {
            alloc,
            piece,
            files: NamedFiles::new(alloc),
            written: NamedFiles::new(alloc),
            hand: InHand::Nothing,
            plan: Plan::new(alloc),
            read_faults: FaultCount::new(),
            write_faults: FaultCount::new(),
        }
    }

    /// Adds or replaces a file, with a copy of the bytes. A file that is being read is read on as it was.
    pub fn put(&mut self, name: &str, bytes: &[u8]) -> Result<(), Memory>
        ensures ok { OnOk result (PutsFile name.now bytes.now self.old self.new) }
        ensures err { OnErr result (self.new ≡ self.old) }
    {
        let copy = Vec::from_slice(self.alloc, bytes)?;
        self.files.set(name, copy)
    }

    /// The bytes of a file.
    pub fn get(&self, name: &str) -> Option<&[u8]>
        ensures { option_copied result ≡ files_of self.now.files name.now }
    {
        self.files.get(name)
    }

    /// What was written of a file since it was created, be it put under its name or not.
    pub fn written(&self, name: &str) -> Option<&[u8]>
        ensures { option_copied result ≡ files_of self.now.written name.now }
    {
        self.written.get(name)
    }

    /// How many calls of reading failed, which stays at the end of its type.
    pub fn read_faults(&self) -> u64
        ensures { result ≡ self.now.read_faults }
    {
        self.read_faults.count()
    }

    /// How many calls of writing failed, which stays at the end of its type.
    pub fn write_faults(&self) -> u64
        ensures { result ≡ self.now.write_faults }
    {
        self.write_faults.count()
    }

    /// Sets a call to fail, counted from 1 over all calls of `Shelf` on this shelf.
    ///
    /// A `close_file` with no file in hand and a `read` with no opened one don't fail.
    pub fn fail_at(&mut self, call: u64) -> Result<(), Memory>
        ensures ok { OnOk result (self.new ≡ with_plan self.old (with_fault self.old.plan call)) }
        ensures err { OnErr result (self.new ≡ self.old) }
    {
        self.plan.fail_at(call)
    }
}

impl Shelf for MemShelf {
    ghost use Rattle.base_shelf.specs.MemShelf.{shelf_of};

    ghost told = { true };

    ghost view = { shelf_of };

    fn open_file(&mut self, name: &str) -> Result<(), IoErr>
        ensures step { OpenStep true name.now (shelf_of self.old) (shelf_of self.new) result }
        ensures exact { MemOpen name.now self.old self.new result }
    {
        self.hand = InHand::Nothing;
        if self.plan.call() {
            self.read_faults.rise();
            return Err(IoErr::Failed);
        }
        let Some(bytes) = self.files.get(name) else {
            self.read_faults.rise();
            return Err(IoErr::Failed);
        };
        self.hand = opened_file(self.alloc, name, bytes)?;
        Ok(())
    }

    fn read(&mut self, buffer: &mut [u8]) -> Result<usize, IoErr>
        ensures step { ReadStep true (shelf_of self.old) (shelf_of self.new) buffer.new result }
        ensures exact { MemRead self.old self.new buffer.old buffer.new result }
    {
        let fails = self.plan.call();
        match &mut self.hand {
            InHand::Opened(_, reader) => {
                if fails {
                    self.read_faults.rise();
                    return Err(IoErr::Failed);
                }
                Ok(reader.read(self.piece, buffer))
            }
            _ => Ok(0),
        }
    }

    fn create_file(&mut self, name: &str) -> Result<(), IoErr>
        ensures step { CreateStep true name.now (shelf_of self.old) (shelf_of self.new) result }
        ensures exact { MemCreate self.old self.new result }
    {
        self.hand = InHand::Nothing;
        if self.plan.call() {
            self.write_faults.rise();
            return Err(IoErr::Failed);
        }
        let created = String::from_str(self.alloc, name)?;
        self.written.set(name, Vec::new(self.alloc))?;
        self.hand = InHand::Created(created);
        Ok(())
    }

    fn write(&mut self, bytes: &[u8]) -> Result<usize, IoErr>
        requires { (name : List ℕ) × (self.old.hand ≡ CreatedFile name) }
        ensures step { Writes true (shelf_of self.old) (shelf_of self.new) bytes.now result }
        ensures exact { MemWrite self.old self.new bytes.now result }
    {
        let InHand::Created(name) = &self.hand else {
            unreachable!()
        };
        if self.plan.call() {
            self.write_faults.rise();
            return Err(IoErr::Failed);
        }
        let count = self.piece.min(bytes.len());
        self.written.append(name, &bytes[..count])?;
        Ok(count)
    }

    fn close_file(&mut self) -> Result<(), IoErr>
        ensures step { CloseStep (shelf_of self.old) (shelf_of self.new) result }
        ensures exact { MemClose self.old self.new result }
    {
        let fails = self.plan.call();
        let hand = mem::replace(&mut self.hand, InHand::Nothing);
        if !fails {
            return Ok(());
        }
        match hand {
            InHand::Nothing => Ok(()),
            InHand::Opened(_, _) => {
                self.read_faults.rise();
                Err(IoErr::Failed)
            }
            InHand::Created(_) => {
                self.write_faults.rise();
                Err(IoErr::Failed)
            }
        }
    }

    fn put_file(&mut self, name: &str) -> Result<(), IoErr>
        ensures step { PutStep true name.now (shelf_of self.old) (shelf_of self.new) result }
        ensures exact { MemPut self.old self.new result }
    {
        self.hand = InHand::Nothing;
        if self.plan.call() {
            self.write_faults.rise();
            return Err(IoErr::Failed);
        }
        let bytes = self.written.get(name).unwrap_or(b"");
        let copy = Vec::from_slice(self.alloc, bytes)?;
        self.files.set(name, copy)?;
        Ok(())
    }

    fn discard(&mut self)
        ensures step { DiscardStep (shelf_of self.old) (shelf_of self.new) }
        ensures plan { self.new.plan ≡ self.old.plan }
    {
        self.hand = InHand::Nothing;
    }
}
