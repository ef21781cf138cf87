//! Names of files that are written.

ghost use Rattle.std.specs.Prelude.{◌≡◌};
ghost use Rattle.base_run.specs.Names.{text_of_name};

/// The name of a file.
#[derive(Drop)]
pub enum FileName<'a> {
    /// One of the words.
    Word(&'a str),
    /// Made of one.
    Made(String),
}

impl<'a> FileName<'a> {
    /// Its text.
    pub fn as_str(&self) -> &str
        ensures { result.now ≡ text_of_name self.now }
    {
        match self {
            FileName::Word(name) => name,
            FileName::Made(name) => name.as_str(),
        }
    }
}
