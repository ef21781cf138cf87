//! `make`: writes the netlist and the recording of a made job, and prints how many of its places have which end.

ghost use Rattle.std.specs.Prelude.{◌≢◌, ◌≤◌};

use crate::gates::gates_in;
use crate::made::made;
use base_line::{Kind, Line, Opt, number_in};
use base_run::{Ready, Refusal};
use base_shelf::{Shelf, Sink};
use cmd_phases::{RECORDING_BYTES, Refused};
use cmd_set::{Form, Inputs, Run};
use cmd_words::needs;
use std::alloc::Global;

static OPTIONS: &[Opt<'static>] = &[
    needs!("number", Kind::Number(0, u64::MAX)),
    needs!("gates", Kind::Number(0, 100_000)),
    needs!("netlist", Kind::Writes),
    needs!("record", Kind::Writes),
];

/// The words of `make`.
#[derive(Clone, Copy, Debug, Drop)]
pub struct Make<'a> {
    /// The number that the draws begin with.
    pub number: u64,
    /// How many gates, 0 to 100,000.
    pub gates: u32,
    /// The file of the netlist.
    pub netlist: &'a str,
    /// The file of the recording.
    pub recording: &'a str,
    ghost few_gates: { gates ≤ 100000 },
    ghost apart: { recording.now ≢ netlist.now },
}

impl<'a> Run<'a> for Make<'a> {
    ghost use Rattle.cmd_program.specs.Make.{make, make_values};

    type Cause = Refused;

    ghost command = { make };

    ghost values = { make_values };

    fn form() -> Form<'a> {
        Form {
            word: "make",
            options: OPTIONS,
            files: false,
        }
    }

    fn of_line(line: &Line<'a>, _files: &'a [String]) -> Option<Self> {
        let number = number_in(line.get("number")?)?;
        let gates = gates_in(line.get("gates")?)?;
        let netlist = line.get("netlist")?;
        let recording = line.get("record")?;
        if recording == netlist {
            return None;
        }
        Some(Make {
            number,
            gates,
            netlist,
            recording,
        })
    }

    fn inputs(&self) -> Inputs<'a> {
        Inputs {
            first: None,
            second: None,
            rest: &[],
            most: RECORDING_BYTES,
        }
    }

    fn prepare<S: Shelf, O: Sink>(
        &self,
        alloc: Global,
        _shelf: &mut S,
        out: &mut O,
    ) -> Result<Ready<'_>, Refusal<Refused>> {
        made(alloc, self, out)
    }
}
