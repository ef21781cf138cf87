//! Files in memory, by name.

ghost use Rattle.std.specs.Prelude.{◌≡◌, [], OnOk, OnErr, option_copied};
ghost use Rattle.base_shelf.specs.NamedFiles.{files_of, SetsFile, AppendsFile, SameFiles};

use base_lists::Memory;
use std::alloc::Global;
use std::collections::BTreeMap;
use std::marker::Model;

/// The bytes of each name.
#[derive(Drop)]
pub struct NamedFiles {
    alloc: Global,
    files: BTreeMap<String, Vec<u8>>,
}

impl Model for NamedFiles {
    ghost use Rattle.std.specs.Prelude.{List, map};
    ghost use Rattle.base_shelf.specs.NamedFiles.{File, file_of};

    ghost Value = { List File };

    ghost view = { λ f. map file_of f.files.entries };
}

impl NamedFiles {
    /// No file.
    pub fn new(alloc: Global) -> NamedFiles
        ensures { result ≡ [] }
    {
        NamedFiles {
            alloc,
            files: BTreeMap::new(alloc),
        }
    }

    /// The bytes of a file.
    pub fn get(&self, name: &str) -> Option<&[u8]>
        ensures { option_copied result ≡ files_of self.now name.now }
    {
        match self.files.get(name) {
            Some(bytes) => Some(bytes.as_slice()),
            None => None,
        }
    }

    /// Adds or replaces a file.
    pub fn set(&mut self, name: &str, bytes: Vec<u8>) -> Result<(), Memory>
        ensures ok { OnOk result (SetsFile name.now bytes.items (files_of self.old) (files_of self.new)) }
        ensures err { OnErr result (self.new ≡ self.old) }
    {
        let key = String::from_str(self.alloc, name)?;
        self.files.insert(key, bytes)?;
        Ok(())
    }

    /// Adds bytes after those of a file, which it makes where there is none.
    pub fn append(&mut self, name: &str, bytes: &[u8]) -> Result<(), Memory>
        ensures ok { OnOk result (AppendsFile name.now bytes.now (files_of self.old) (files_of self.new)) }
        ensures err { OnErr result (SameFiles (files_of self.old) (files_of self.new)) }
    {
        match self.files.get_mut(name) {
            Some(held) => {
                held.extend_from_slice(bytes)?;
                Ok(())
            }
            None => {
                let first = Vec::from_slice(self.alloc, bytes)?;
                self.set(name, first)
            }
        }
    }
}
