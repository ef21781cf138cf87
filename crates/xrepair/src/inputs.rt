//! The files that a command reads.

ghost use Rattle.std.specs.Prelude.{◌≡◌, [], map, option_map, string_bytes};
ghost use Rattle.base_files.specs.Fetched.{AddsAmong, IsFetched};
ghost use Rattle.cmd_set.specs.Command.{names_of, put_name};

use base_files::Fetched;
use base_lists::Memory;
use cmd_set::Inputs;
use std::fs::File;
use std::rt::Files;

/// Reads each of the files once.
#[tactic(auto, using(crate::proofs::Adding::adds_first))]
pub fn fetch_inputs<R: Files<File = File>>(
    files: &R,
    inputs: &Inputs<'_>,
    fetched: &mut Fetched,
) -> Result<(), Memory>
    requires { IsFetched fetched.old }
    ensures fetched { IsFetched fetched.new }
    ensures limit { fetched.new.limit ≡ fetched.old.limit }
    ensures among { AddsAmong (names_of inputs.now) fetched.old fetched.new }
{
    fetch_named(files, inputs.first, fetched)?;
    fetch_later(files, inputs, fetched)
}

/// Those after the first.
#[tactic(auto, using(crate::proofs::Adding::adds_first))]
fn fetch_later<R: Files<File = File>>(
    files: &R,
    inputs: &Inputs<'_>,
    fetched: &mut Fetched,
) -> Result<(), Memory>
    requires { IsFetched fetched.old }
    ensures fetched { IsFetched fetched.new }
    ensures limit { fetched.new.limit ≡ fetched.old.limit }
    ensures among { AddsAmong (put_name (option_map (λ s. s.now) inputs.now.second)
        (map string_bytes inputs.now.rest.now)) fetched.old fetched.new }
{
    fetch_named(files, inputs.second, fetched)?;
    fetched.fetch_all(files, inputs.rest)
}

/// One by itself, if there is any.
fn fetch_named<R: Files<File = File>>(
    files: &R,
    name: Option<&str>,
    fetched: &mut Fetched,
) -> Result<(), Memory>
    requires { IsFetched fetched.old }
    ensures fetched { IsFetched fetched.new }
    ensures limit { fetched.new.limit ≡ fetched.old.limit }
    ensures among { AddsAmong (put_name (option_map (λ s. s.now) name.entry) []) fetched.old fetched.new }
{
    match name {
        Some(name) => fetched.fetch(files, name),
        None => Ok(()),
    }
}
