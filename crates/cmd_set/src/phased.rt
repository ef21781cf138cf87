//! A command, read and run.

ghost use Rattle.std.specs.Prelude.{List, ℕ, map, string_bytes};
ghost use Rattle.base_run.specs.Ends.{reporting_of};
ghost use Rattle.base_run.specs.Rows.{start_with};
ghost use Rattle.cmd_set.specs.Set.{RanAs};

use crate::command::Run;
use crate::read::read_as;
use base_run::{Prepare, Ready, Refusal, refuse_memory, refuse_words, run_command};
use base_shelf::{Shelf, Sink};
use std::alloc::Global;
use std::marker::PhantomData;

/// A command as its phases.
#[derive(Drop)]
struct Phased<'a, C> {
    command: C,
    of: PhantomData<&'a str>,
}

impl<'a, C: Run<'a>> Prepare for Phased<'a, C> {
    type Cause = C::Cause;

    ghost phases = { λ p. C.command.phases (C.values p.command) };

    fn prepare<S: Shelf, O: Sink>(
        &self,
        alloc: Global,
        shelf: &mut S,
        out: &mut O,
    ) -> Result<Ready<'_>, Refusal<C::Cause>> {
        self.command.prepare(alloc, shelf, out)
    }
}

/// Reads the words after a command, runs it, and answers the exit status.
pub fn run_as<'a, C: Run<'a> + Drop, S: Shelf, O: Sink>(
    alloc: Global,
    rest: &'a [String],
    shelf: &mut S,
    out: &mut O,
) -> u8
    ensures { (line : List (List ℕ)) → RanAs C.command (reporting_of C.Cause.status_of C.Cause.text_of)
        (map string_bytes rest.now) (start_with line S.told O.told (S.view shelf.old) (O.view out.old))
        (S.view shelf.new) (O.view out.new) result }
{
    match read_as::<C>(alloc, rest) {
        Ok(Some(command)) => {
            let phased = Phased {
                command,
                of: PhantomData,
            };
            run_command(alloc, &phased, shelf, out)
        }
        Ok(None) => refuse_words(out),
        Err(_) => refuse_memory(out),
    }
}
