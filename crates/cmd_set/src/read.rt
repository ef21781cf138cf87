//! The words after a command, read.

ghost use Rattle.std.specs.Prelude.{IfOk, IfSome, IfNone, map, string_bytes};
ghost use Rattle.cmd_set.specs.Command.{AreInputs, IsLineOf, IsNoLineOf};

use crate::command::Run;
use crate::inputs::Inputs;
use base_line::{files_in, read_line};
use base_lists::Memory;
use std::alloc::Global;

/// Reads the words after a command, or answers that they are none of its lines.
pub fn read_as<'a, C: Run<'a> + Drop>(
    alloc: Global,
    rest: &'a [String],
) -> Result<Option<C>, Memory>
    ensures set { IfOk result (λ o. IfSome o (λ c. IsLineOf C.command (map string_bytes rest.now) (C.values c))) }
    ensures none { IfOk result (λ o. IfNone o (IsNoLineOf C.command (map string_bytes rest.now))) }
{
    let form = C::form();
    match read_line(alloc, form.word, form.options, form.files, rest)? {
        Some(line) => {
            let files = files_in(rest, &line);
            Ok(C::of_line(&line, files))
        }
        None => Ok(None),
    }
}

/// The files that a command reads by the words after it, none where these are no line of it.
pub fn inputs_as<'a, C: Run<'a> + Drop>(
    alloc: Global,
    rest: &'a [String],
) -> Result<Option<Inputs<'a>>, Memory>
    ensures { IfOk result (AreInputs C.command (map string_bytes rest.now)) }
{
    match read_as::<C>(alloc, rest)? {
        Some(command) => Ok(Some(command.inputs())),
        None => Ok(None),
    }
}
