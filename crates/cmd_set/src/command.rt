//! What a command has to have.

ghost use Rattle.std.specs.Prelude.{◌≡◌, map, true, IfSome, IfNone, string_bytes};
ghost use Rattle.base_line.specs.Line.{HasFiles, are_options};
ghost use Rattle.base_line.specs.Read.{options_by, value_of};
ghost use Rattle.base_line.specs.Tables.{plain};
ghost use Rattle.base_run.specs.Prepared.{Prepared, answer_of};
ghost use Rattle.cmd_set.specs.Command.{Command, names_of};

use crate::form::Form;
use crate::inputs::Inputs;
use base_line::Line;
use base_run::{Cause, Ready, Refusal};
use base_shelf::{Shelf, Sink};
use std::alloc::Global;

/// A command with what its words name.
pub trait Run<'a>: Sized {
    type Cause: Cause;

    ghost command: { Command Self.Cause };

    ghost values: { Self → command.Values };

    /// The form of its line.
    fn form() -> Form<'a>
        ensures word { result.word.now ≡ command.word }
        ensures table { map plain result.options.now ≡ command.table }
        ensures order { are_options result.options.now ≡ true }
        ensures files { result.files ≡ command.has_files };

    /// What a line of its options names together with the FILEs, none where one lacks or has no value that it may have.
    fn of_line(line: &Line<'a>, files: &'a [String]) -> Option<Self>
        requires { HasFiles command.has_files (map string_bytes files.now) }
        ensures files { IfSome result (λ c. command.files (values c) ≡ map string_bytes files.now) }
        ensures gives { IfSome result (λ c. command.Gives (options_by (value_of line.now)) (values c)) }
        ensures none { IfNone result ((v : command.Values) → command.files v ≡ map string_bytes files.now
            → command.Gives (options_by (value_of line.now)) v → ⊥) };

    /// The files that it reads.
    fn inputs(&self) -> Inputs<'a>
        ensures names { names_of result ≡ command.inputs (values self.now) }
        ensures most { result.most ≡ command.most };

    /// Goes through its phases before the first output. The sink is told how far a long one has come, and takes
    /// nothing.
    fn prepare<S: Shelf, O: Sink>(
        &self,
        alloc: Global,
        shelf: &mut S,
        out: &mut O,
    ) -> Result<Ready<'_>, Refusal<Self::Cause>>
        ensures prepared { Prepared S.told (command.phases (values self.now)) answer_of
            (S.view shelf.old) (S.view shelf.new) result }
        ensures out { O.view out.new ≡ O.view out.old };
}
