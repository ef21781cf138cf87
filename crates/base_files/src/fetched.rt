//! The texts of files, as their reads gave them.

ghost use Rattle.std.specs.Prelude.{◌≡◌, [], ◌∷◌, None, IfOk, IfSome, is_some, map, option_copied, string_bytes};
ghost use Rattle.base_shelf.specs.NamedFiles.{files_of};
ghost use Rattle.base_shelf.specs.Shelf.{bytes_of};
ghost use Rattle.base_files.specs.Fetched.{AddsAmong, IsFetched, IsGiven, OthersTraced};

use crate::noted::read_noted;
use base_lists::Memory;
use base_shelf::NamedFiles;
use base_trace::Record;
use std::alloc::Global;
use std::fs;
use std::fs::File;
use std::rt::Files;

/// The most bytes that one call of `read` is asked for.
const BUFFER_BYTES: usize = 65_536;

/// The texts of files, each read once: to its end, or until it has more bytes than the limit.
#[derive(Drop)]
pub struct Fetched {
    alloc: Global,
    limit: usize,
    texts: NamedFiles,
    gave: Record,
    ended: Record,
}

impl Fetched {
    /// No text.
    pub fn new(alloc: Global, limit: usize) -> Fetched
        ensures limit { result.limit ≡ limit }
        ensures texts { result.texts ≡ [] }
        ensures gave { result.gave.entries ≡ [] }
        ensures ended { result.ended.entries ≡ [] }
    {
        Fetched {
            alloc,
            limit,
            texts: NamedFiles::new(alloc),
            gave: Record::new(),
            ended: Record::new(),
        }
    }

    /// Whether a file has a text.
    pub fn has(&self, name: &str) -> bool
        ensures { result ≡ is_some (files_of self.now.texts name.now) }
    {
        match self.texts.get(name) {
            Some(_) => true,
            None => false,
        }
    }

    /// Its bytes, none where it has no text.
    #[tactic(auto)]
    pub fn bytes(&self, name: &str) -> &[u8]
        ensures { result.now ≡ bytes_of (files_of self.now.texts name.now) }
    {
        match self.texts.get(name) {
            Some(text) => text,
            None => &[],
        }
    }

    /// Reads a file that has no text yet. One that can't be read has none afterwards.
    pub fn fetch<R: Files<File = File>>(&mut self, files: &R, name: &str) -> Result<(), Memory>
        requires { IsFetched self.old }
        ensures fetched { IsFetched self.new }
        ensures limit { self.new.limit ≡ self.old.limit }
        ensures among { AddsAmong (name.now ∷ []) self.old self.new }
    {
        match self.texts.get(name) {
            Some(_) => Ok(()),
            None => self.fetch_new(files, name),
        }
    }

    /// Reads each of the files that has no text yet.
    pub fn fetch_all<R: Files<File = File>>(
        &mut self,
        files: &R,
        names: &[String],
    ) -> Result<(), Memory>
        requires { IsFetched self.old }
        ensures fetched { IsFetched self.new }
        ensures limit { self.new.limit ≡ self.old.limit }
        ensures among { AddsAmong (map string_bytes names.now) self.old self.new }
    {
        'names: for name in names {
            self.fetch(files, name.as_str())?;
        }
        Ok(())
    }

    fn fetch_new<R: Files<File = File>>(&mut self, files: &R, name: &str) -> Result<(), Memory>
        requires given { IsFetched self.old }
        requires absent { files_of self.old.texts name.now ≡ None }
        ensures fetched { IsFetched self.new }
        ensures limit { self.new.limit ≡ self.old.limit }
        ensures among { AddsAmong (name.now ∷ []) self.old self.new }
    {
        let gave = &mut self.gave;
        let ended = &mut self.ended;
        match read_file(self.alloc, files, name, self.limit, gave, ended)? {
            Some(text) => {
                self.texts.set(name, text)?;
                Ok(())
            }
            None => Ok(()),
        }
    }
}

/// Reads a file once, to its end or until it has more bytes than the limit; nothing where it can't be read.
fn read_file<R: Files<File = File>>(
    alloc: Global,
    files: &R,
    name: &str,
    limit: usize,
    gave: &mut Record,
    ended: &mut Record,
) -> Result<Option<Vec<u8>>, Memory>
    ensures others { OthersTraced name.now gave.old.entries gave.new.entries }
    ensures others_ended { OthersTraced name.now ended.old.entries ended.new.entries }
    ensures given { IfOk result (λ got. IfSome got (λ text.
        IsGiven limit gave.new.entries ended.new.entries name.now text.items)) }
{
    let mut room = vec![in alloc; 0u8; BUFFER_BYTES]?;
    let buffer = room.as_mut_slice();
    let Ok(mut file) = fs::open(files, name) else {
        return Ok(None);
    };
    gave.set(name.as_bytes(), &[]);
    let mut text = Vec::new(alloc);
    'turns: while text.len() <= limit {
        let Ok(count) = read_noted(&mut file, buffer, name.as_bytes(), gave) else {
            return Ok(None);
        };
        if count == 0 {
            ended.set(name.as_bytes(), text.as_slice());
            return Ok(Some(text));
        }
        text.extend_from_slice(&buffer[..count])?;
    }
    Ok(Some(text))
}
