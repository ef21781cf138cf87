//! Real files as a shelf.

ghost use Rattle.std.specs.Prelude.{◌≡◌, is_some, IsTrue};
ghost use Rattle.base_shelf.specs.NamedFiles.{files_of};
ghost use Rattle.base_files.specs.GivenUp.{GivesUp};
ghost use Rattle.base_files.specs.Put.{AreNew};
ghost use Rattle.base_files.specs.Stage.{put_in, taken_in};

use crate::fetched::Fetched;
use crate::parts::Parts;
use crate::stage::{Created, Opened, Stage, Traces};
use base_shelf::{FaultCount, IoErr, Shelf};
use std::alloc::Global;
use std::fs::File;
use std::mem;
use std::rt::Files;

/// Real files, which report their bytes: of a file that is read the text that was fetched, of one that is written what
/// its writes took. Once a file was made none is read, and no file that has a text is made.
///
/// The bytes of a file lie in `NAME.part`, which is made new, until the file is put: then it is renamed to `NAME`. A
/// run that gives up its files removes them instead. A device, a pipe or a link is written itself, and takes its bytes
/// as they are written.
#[derive(Drop)]
pub struct FileShelf<'a, R: Files<File = File>> {
    files: &'a R,
    alloc: Global,
    fetched: &'a Fetched,
    stage: Stage,
    parts: Parts,
    read_faults: FaultCount,
    write_faults: FaultCount,
    pub ghost apart: { AreNew stage (files_of fetched.now.texts) },
}

impl<'a, R: Files<File = File>> FileShelf<'a, R> {
    /// The texts that were fetched, no file in hand, none made, and no fault counted.
    pub fn new(files: &'a R, alloc: Global, fetched: &'a Fetched) -> FileShelf<'a, R>
        ensures stage { result.stage ≡ Stage.Resting }
        ensures fetched { result.fetched.now ≡ fetched.now }
        ensures reads { result.read_faults ≡ 0 }
        ensures writes { result.write_faults ≡ 0 }
    {
        FileShelf {
            files,
            alloc,
            fetched,
            stage: Stage::Resting,
            parts: Parts::new(alloc),
            read_faults: FaultCount::new(),
            write_faults: FaultCount::new(),
        }
    }

    /// Whether a text of this name can be read: no file was made yet.
    fn has_text(&self, name: &str) -> bool
        ensures stage { IsTrue result → self.now.stage ≡ Stage.Resting }
        ensures there { IsTrue result → IsTrue (is_some (files_of self.now.fetched.now.texts name.now)) }
    {
        match &self.stage {
            Stage::Resting => self.fetched.has(name),
            _ => false,
        }
    }

    /// Gives up the file in hand.
    fn give_up(&mut self)
        ensures fetched { self.new.fetched ≡ self.old.fetched }
        ensures reads { self.new.read_faults ≡ self.old.read_faults }
        ensures writes { self.new.write_faults ≡ self.old.write_faults }
        ensures step { GivesUp self.old.stage self.new.stage }
    {
        self.stage = given_up(mem::replace(&mut self.stage, Stage::Resting));
    }
}

/// The stage without the file in hand.
#[tactic(auto)]
fn given_up(stage: Stage) -> Stage
    ensures { GivesUp stage result }
{
    match stage {
        Stage::Resting => Stage::Resting,
        Stage::Reading(_) => Stage::Resting,
        Stage::Wrote(traces) => Stage::Wrote(traces),
        Stage::Writing(created) => Stage::Wrote(Traces {
            took: created.took,
            put: created.put,
        }),
    }
}

/// What was written so far, and put.
#[tactic(auto)]
fn traces_of(stage: Stage) -> Traces
    ensures took { result.took.entries ≡ taken_in stage }
    ensures put { result.put.entries ≡ put_in stage }
{
    match stage {
        Stage::Resting => Traces::new(),
        Stage::Reading(_) => Traces::new(),
        Stage::Wrote(traces) => traces,
        Stage::Writing(created) => Traces {
            took: created.took,
            put: created.put,
        },
    }
}

impl<'a, R: Files<File = File>> Shelf for FileShelf<'a, R> {
    ghost use Rattle.std.specs.Prelude.{true};
    ghost use Rattle.base_files.specs.Seen.{shelf_seen};

    ghost told = { true };

    ghost view = { λ s. shelf_seen s.stage s.fetched.now.texts s.read_faults s.write_faults };

    fn open_file(&mut self, name: &str) -> Result<(), IoErr> {
        self.give_up();
        if !self.has_text(name) {
            self.read_faults.rise();
            return Err(IoErr::Failed);
        }
        let name = String::from_str(self.alloc, name)?;
        self.stage = Stage::Reading(Opened { name, done: 0 });
        Ok(())
    }

    fn read(&mut self, buffer: &mut [u8]) -> Result<usize, IoErr> {
        match mem::replace(&mut self.stage, Stage::Resting) {
            Stage::Reading(mut opened) => {
                let text = self.fetched.bytes(opened.name.as_str());
                let count = opened.give(text, buffer);
                self.stage = Stage::Reading(opened);
                Ok(count)
            }
            other => {
                self.stage = other;
                Ok(0)
            }
        }
    }

    fn create_file(&mut self, name: &str) -> Result<(), IoErr> {
        self.give_up();
        if self.fetched.has(name) {
            self.write_faults.rise();
            return Err(IoErr::Failed);
        }
        let copy = String::from_str(self.alloc, name)?;
        let Traces { mut took, put } = traces_of(mem::replace(&mut self.stage, Stage::Resting));
        match self.parts.make(self.files, name, &mut took) {
            Ok(file) => {
                self.stage = Stage::Writing(Created {
                    name: copy,
                    file,
                    took,
                    put,
                });
                Ok(())
            }
            Err(IoErr::Failed) => {
                self.stage = Stage::Wrote(Traces { took, put });
                self.write_faults.rise();
                Err(IoErr::Failed)
            }
            Err(IoErr::Memory) => {
                self.stage = Stage::Wrote(Traces { took, put });
                Err(IoErr::Memory)
            }
        }
    }

    fn write(&mut self, bytes: &[u8]) -> Result<usize, IoErr> {
        let Stage::Writing(created) = &mut self.stage else {
            unreachable!()
        };
        match created.write(bytes) {
            Ok(count) => Ok(count),
            Err(_) => {
                self.write_faults.rise();
                Err(IoErr::Failed)
            }
        }
    }

    fn close_file(&mut self) -> Result<(), IoErr> {
        self.give_up();
        Ok(())
    }

    fn put_file(&mut self, name: &str) -> Result<(), IoErr> {
        let Traces { took, mut put } = traces_of(mem::replace(&mut self.stage, Stage::Resting));
        match self.parts.put(self.files, name, &took, &mut put) {
            Ok(()) => {
                self.stage = Stage::Wrote(Traces { took, put });
                Ok(())
            }
            Err(_) => {
                self.stage = Stage::Wrote(Traces { took, put });
                self.write_faults.rise();
                Err(IoErr::Failed)
            }
        }
    }

    fn discard(&mut self) {
        self.give_up();
        self.parts.discard(self.files);
    }
}
