//! What a command has found, ready to be delivered.

ghost use Rattle.std.specs.Prelude.{map};
ghost use Rattle.base_run.specs.Outputs.{AreApart, file_of};

use crate::output::{Output, Report};

/// What a command has found: the outputs in their order, each of another name, and the report after them.
#[derive(Drop)]
pub struct Ready<'a> {
    pub outputs: Vec<Output<'a>>,
    pub report: Report,
    ghost apart: { AreApart (map file_of outputs.items) },
}
