//! `prove`: reads a formula and a log, and prints how many clauses the log has where it refutes the formula.

use crate::proved::prove_cnf;
use base_line::{Kind, Line, Opt};
use base_run::{Ready, Refusal, read_input};
use base_shelf::{Shelf, Sink};
use cmd_phases::{Refused, TEXT_BYTES};
use cmd_set::{Form, Inputs, Run};
use cmd_words::needs;
use std::alloc::Global;

static OPTIONS: &[Opt<'static>] = &[needs!("cnf", Kind::Reads), needs!("log", Kind::Reads)];

/// The words of `prove`.
#[derive(Clone, Copy, Debug, Drop)]
pub struct Prove<'a> {
    /// The file of the formula.
    pub cnf: &'a str,
    /// The file of the log.
    pub log: &'a str,
}

impl<'a> Run<'a> for Prove<'a> {
    ghost use Rattle.cmd_program.specs.Prove.{prove, prove_values};

    type Cause = Refused;

    ghost command = { prove };

    ghost values = { prove_values };

    fn form() -> Form<'a> {
        Form {
            word: "prove",
            options: OPTIONS,
            files: false,
        }
    }

    fn of_line(line: &Line<'a>, _files: &'a [String]) -> Option<Self> {
        Some(Prove {
            cnf: line.get("cnf")?,
            log: line.get("log")?,
        })
    }

    fn inputs(&self) -> Inputs<'a> {
        Inputs {
            first: Some(self.cnf),
            second: Some(self.log),
            rest: &[],
            most: TEXT_BYTES,
        }
    }

    fn prepare<S: Shelf, O: Sink>(
        &self,
        alloc: Global,
        shelf: &mut S,
        _out: &mut O,
    ) -> Result<Ready<'_>, Refusal<Refused>> {
        let cnf = read_input(alloc, shelf, self.cnf, TEXT_BYTES, Refused::LongCnf)?;
        prove_cnf(alloc, shelf, self, cnf.as_slice())
    }
}
