//! Names of files that begin with a prefix, and the files of these names.

ghost use Rattle.std.specs.Prelude.{◌≡◌, ◌∷◌, ◌++◌, [], IfOk, OnOk, map, string_bytes};
ghost use Rattle.base_run.specs.Outputs.{file_of};
ghost use Rattle.cert_export.specs.Export.{cert_name, file, line_name};

use base_lists::Memory;
use base_run::Output;
use itoa::Buffer;
use std::alloc::Global;

/// The name of a certificate.
pub fn cert_name(alloc: Global, prefix: &str) -> Result<String, Memory>
    ensures { IfOk result (λ name. string_bytes name ≡ cert_name prefix.now) }
{
    let mut name = String::from_str(alloc, prefix)?;
    name.push_str(".xc")?;
    Ok(name)
}

/// The name of a file of the line of this number.
pub fn line_name(alloc: Global, prefix: &str, number: usize, ending: &str) -> Result<String, Memory>
    ensures { IfOk result (λ name. string_bytes name ≡ line_name prefix.now number ending.now) }
{
    let mut digits = Buffer::new();
    let mut name = String::from_str(alloc, prefix)?;
    name.push_str("-")?;
    name.push_str(digits.format(number))?;
    name.push_str(ending)?;
    Ok(name)
}

/// One file more.
pub fn put_file<'a>(
    alloc: Global,
    outputs: &mut Vec<Output<'a>>,
    name: String,
    bytes: Vec<u8>,
) -> Result<(), Memory>
    ensures { OnOk result (map file_of outputs.new.items
        ≡ map file_of outputs.old.items ++ file (string_bytes name) bytes.items ∷ []) }
{
    let output = Output::named(alloc, name, bytes)?;
    outputs.push(output)?;
    Ok(())
}
