//! The files of the lines of a wave.

ghost use Rattle.std.specs.Prelude.{◌≡◌, ◌∷◌, ◌++◌, [], IfOk, OnOk, codes, map, option_map};
ghost use Rattle.design_circuit.specs.Job.{number_of};
ghost use Rattle.wave_proved.specs.Contents.{job};
ghost use Rattle.decide_cnf.specs.Query.{IsQueryOf};
ghost use Rattle.decide_cone.specs.Known.{IsRightOf};
ghost use Rattle.base_run.specs.Outputs.{file_of};
ghost use Rattle.cert_export.specs.Export.{AreFiles, AreFilesOf, log_files, log_of};
ghost use Rattle.cert_export.specs.Adding.{Adds, IsLineIn};

use crate::names::{line_name, put_file};
use base_lists::Memory;
use base_run::Output;
use decide_cnf::clauses;
use decide_cone::Tracer;
use design_circuit::Place;
use law_model::{Body, Line};
use sat_dimacs::{write_cnf, write_log};
use sat_proof::{Cnf, Log};
use std::alloc::Global;
use wave_proved::Wave;

/// The files of all lines come in, in their order.
pub fn put_lines<'a>(
    alloc: Global,
    outputs: &mut Vec<Output<'a>>,
    prefix: &str,
    wave: &Wave<'_>,
) -> Result<(), Memory>
    ensures { OnOk result (Adds (AreFiles wave.now prefix.now 1 wave.now.lines)
        (map file_of outputs.old.items) (map file_of outputs.new.items)) }
{
    wave.recall();
    let lines = wave.lines();
    let mut tracer = Tracer::new(alloc);
    'lines: for place in 0..lines.len() {
        let line = &lines[place];
        put_line(alloc, outputs, &mut tracer, prefix, wave, place + 1, line)?;
    }
    Ok(())
}

/// The files of the line of this number come in: its query's and, where it has a log, its log's.
fn put_line<'a>(
    alloc: Global,
    outputs: &mut Vec<Output<'a>>,
    tracer: &mut Tracer,
    prefix: &str,
    wave: &Wave<'_>,
    number: usize,
    line: &Line,
) -> Result<(), Memory>
    requires line { IsLineIn wave.now line.now.place }
    requires right { IsRightOf wave.now tracer.old }
    ensures files { OnOk result (Adds (AreFilesOf wave.now prefix.now number line.now)
        (map file_of outputs.old.items) (map file_of outputs.new.items)) }
    ensures right { OnOk result (IsRightOf wave.now tracer.new) }
{
    let query = query_of(alloc, wave, tracer, line.place)?;
    let text = write_cnf(alloc, &query)?;
    let name = line_name(alloc, prefix, number, ".cnf")?;
    put_file(alloc, outputs, name, text)?;
    put_log(alloc, outputs, prefix, number, log_of(&line.body))
}

/// The query of a place, a Line place that is written. Takes the memory of its cone.
fn query_of(
    alloc: Global,
    wave: &Wave<'_>,
    tracer: &mut Tracer,
    place: Place,
) -> Result<Cnf, Memory>
    requires line { IsLineIn wave.now place }
    requires right { IsRightOf wave.now tracer.old }
    ensures query { IfOk result (IsQueryOf wave.now (number_of (job wave.now) place)) }
    ensures right { OnOk result (IsRightOf wave.now tracer.new) }
{
    let cone = tracer.trace_at(alloc, wave, place)?;
    clauses(alloc, &cone)
}

/// The log of a line, if it has one.
pub fn log_of(body: &Body) -> Option<&Log>
    ensures { option_map (λ log. log.now) result ≡ log_of body.now }
{
    match body {
        Body::Enumerated(_) => None,
        Body::Refuted(_, log) => Some(log),
        Body::Pair(_, _) => None,
        Body::Undecided(log) => Some(log),
    }
}

/// The file of a log comes in, if there is one.
fn put_log<'a>(
    alloc: Global,
    outputs: &mut Vec<Output<'a>>,
    prefix: &str,
    number: usize,
    log: Option<&Log>,
) -> Result<(), Memory>
    ensures { OnOk result (map file_of outputs.new.items ≡ map file_of outputs.old.items
        ++ log_files prefix.now number (option_map (λ l. l.now) log.entry)) }
{
    match log {
        Some(log) => {
            let text = write_log(alloc, log)?;
            let name = line_name(alloc, prefix, number, ".log")?;
            put_file(alloc, outputs, name, text)
        }
        None => Ok(()),
    }
}
