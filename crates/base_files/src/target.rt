//! Where the bytes of a file lie while it is written.

ghost use Rattle.std.specs.Prelude.{IfOk};
ghost use Rattle.base_files.specs.Target.{IsTargetOf};

use base_lists::Memory;
use std::alloc::Global;
use std::fs;
use std::fs::File;
use std::io::ErrorKind;
use std::rt::Files;

/// A file beside the name, which is put under the name once all files are written; or what stands under the name
/// itself.
#[derive(Drop)]
pub enum Target {
    Part(String),
    Itself,
}

impl Target {
    /// Removes the part, as far as that can be.
    pub fn discard<R: Files<File = File>>(&self, files: &R) {
        if let Target::Part(part) = self {
            let _ = fs::remove_file(files, part.as_str());
        }
    }
}

/// The name and `.part`, where nothing or a regular file stands under the name. A device, a pipe or a link is written
/// itself.
pub fn target_of<R: Files<File = File>>(
    files: &R,
    alloc: Global,
    name: &str,
) -> Result<Target, Memory>
    ensures { IfOk result (IsTargetOf name.now) }
{
    if has_part(files, name) {
        return Ok(Target::Part(format!(in alloc; "{name}.part")?));
    }
    Ok(Target::Itself)
}

fn has_part<R: Files<File = File>>(files: &R, name: &str) -> bool {
    match fs::symlink_metadata(files, name) {
        Ok(there) => there.is_file(),
        Err(error) => error.kind() == ErrorKind::NotFound,
    }
}
