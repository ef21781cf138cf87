//! The files that were made and aren't put under their names yet.

ghost use Rattle.std.specs.Prelude.{◌≡◌, [], OnOk, OnErr};
ghost use Rattle.base_trace.specs.Record.{traced_anew, traced_bytes};

use crate::noted::{Refused, create_noted, put_noted};
use crate::target::{Target, target_of};
use base_shelf::IoErr;
use base_trace::Record;
use std::alloc::Global;
use std::collections::BTreeMap;
use std::fs::File;
use std::rt::Files;

/// The files that were made and aren't put under their names yet: where the bytes of each lie.
#[derive(Drop)]
pub struct Parts {
    alloc: Global,
    targets: BTreeMap<String, Target>,
}

impl Parts {
    /// No file.
    pub fn new(alloc: Global) -> Parts {
        Parts {
            alloc,
            targets: BTreeMap::new(alloc),
        }
    }

    /// Makes a file for a name, and notes that nothing was written of it. A name whose file isn't put yet is refused.
    pub fn make<R: Files<File = File>>(
        &mut self,
        files: &R,
        name: &str,
        took: &mut Record,
    ) -> Result<File, IoErr>
        ensures ok { OnOk result (took.new.entries ≡ traced_anew name.now [] took.old.entries) }
        ensures err { OnErr result (took.new.entries ≡ took.old.entries) }
    {
        if self.targets.contains_key(name) {
            return Err(IoErr::Failed);
        }
        let key = String::from_str(self.alloc, name)?;
        let target = target_of(files, self.alloc, name)?;
        if self.targets.insert(key, target).is_err() {
            return Err(IoErr::Memory);
        }
        self.make_listed(files, name, took)
    }

    /// Makes the file, once it is listed, so that no part is left unlisted. One that can't be made isn't listed after.
    fn make_listed<R: Files<File = File>>(
        &mut self,
        files: &R,
        name: &str,
        took: &mut Record,
    ) -> Result<File, IoErr>
        ensures ok { OnOk result (took.new.entries ≡ traced_anew name.now [] took.old.entries) }
        ensures err { OnErr result (took.new.entries ≡ took.old.entries) }
    {
        let Some(target) = self.targets.get(name) else {
            return Err(IoErr::Failed);
        };
        match create_noted(files, name, target, took) {
            Ok(file) => Ok(file),
            Err(_) => {
                let _ = self.targets.remove(name);
                Err(IoErr::Failed)
            }
        }
    }

    /// Puts the file that was made for a name under it, and notes that what was written of it stands there.
    pub fn put<R: Files<File = File>>(
        &mut self,
        files: &R,
        name: &str,
        took: &Record,
        put: &mut Record,
    ) -> Result<(), Refused>
        ensures ok { OnOk result (put.new.entries
            ≡ traced_anew name.now (traced_bytes took.now.entries name.now) put.old.entries) }
        ensures err { OnErr result (put.new.entries ≡ put.old.entries) }
    {
        let Some(target) = self.targets.get(name) else {
            return Err(Refused);
        };
        put_noted(files, name, target, took, put)?;
        let _ = self.targets.remove(name);
        Ok(())
    }

    /// Removes each part, as far as that can be.
    pub fn discard<R: Files<File = File>>(&mut self, files: &R) {
        'targets: for target in self.targets.values() {
            target.discard(files);
        }
        self.targets.clear();
    }
}
