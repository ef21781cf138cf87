//! The program as one call over real files.

ghost use Rattle.std.specs.Prelude.{◌≡◌, ◌≤◌, IfOk, map, string_bytes};
ghost use Rattle.cmd_program.specs.Commands.{command_of, reporting};
ghost use Rattle.base_files.specs.Seen.{shelf_seen};
ghost use Rattle.base_files.specs.Shipped.{IsFetchedFor, Shipped, start_over};
ghost use Rattle.base_files.specs.Sink.{sink_seen};
ghost use Rattle.base_run.specs.Ends.{Comes};
ghost use Rattle.cmd_set.specs.Set.{Done, EndsInOrder, RefusesTexts, commands};
ghost use Rattle.xrepair.specs.Reads.{read_by};

use crate::inputs::fetch_inputs;
use base_files::{Fetched, FileShelf, OutSink};
use base_lists::Memory;
use cmd_program::{inputs_of, run};
use std::alloc::Global;
use std::fs::File;
use std::io::{Eprint, Write};
use std::rt::Files;
use std::time::Clock;

/// Reads the files that the words name as inputs, each once. One that can't be read has no text, and a run that opens
/// it reports that.
pub fn fetch<R: Files<File = File>>(
    files: &R,
    alloc: Global,
    words: &[String],
) -> Result<Fetched, Memory>
    ensures { IfOk result (IsFetchedFor (commands command_of reporting) read_by (map string_bytes words.now)) }
{
    match inputs_of(alloc, words)? {
        Some(inputs) => {
            let mut fetched = Fetched::new(alloc, inputs.most);
            fetch_inputs(files, &inputs, &mut fetched)?;
            Ok(fetched)
        }
        None => Ok(Fetched::new(alloc, 0)),
    }
}

/// Runs the words on real files, of which the inputs are fetched. Answers the exit status, and the shelf as it was
/// left.
pub fn ship<'a, R: Files<File = File>, W: Write + Drop, P: Clock + Eprint>(
    files: &'a R,
    alloc: Global,
    words: &[String],
    fetched: &'a Fetched,
    out: &mut OutSink<'_, W, P>,
) -> (u8, FileShelf<'a, R>)
    requires { IsFetchedFor (commands command_of reporting) read_by (map string_bytes words.now) fetched.now }
    ensures comes { let sink = sink_seen out.old.faults out.old.took in
        let start = start_over (map string_bytes words.now) fetched.now sink in let left = result.1 in
        Comes (commands command_of reporting) start
        (shelf_seen left.stage left.fetched.now.texts left.read_faults left.write_faults)
        (sink_seen out.new.faults out.new.took) result.0 }
    ensures done { let sink = sink_seen out.old.faults out.old.took in
        let start = start_over (map string_bytes words.now) fetched.now sink in let left = result.1 in result.0 ≡ 0
        → Done command_of start (shelf_seen left.stage left.fetched.now.texts left.read_faults left.write_faults)
        (sink_seen out.new.faults out.new.took) }
    ensures refused { let sink = sink_seen out.old.faults out.old.took in
        let start = start_over (map string_bytes words.now) fetched.now sink in let left = result.1 in 5 ≤ result.0
        → result.0 ≤ 19
        → RefusesTexts command_of reporting start
        (shelf_seen left.stage left.fetched.now.texts left.read_faults left.write_faults)
        (sink_seen out.new.faults out.new.took) result.0 }
    ensures complete { let sink = sink_seen out.old.faults out.old.took in
        let start = start_over (map string_bytes words.now) fetched.now sink in let left = result.1 in
        EndsInOrder command_of reporting start
        (shelf_seen left.stage left.fetched.now.texts left.read_faults left.write_faults)
        (sink_seen out.new.faults out.new.took) result.0 }
    ensures shipped { let sink = sink_seen out.old.faults out.old.took in let left = result.1 in result.0 ≡ 0
        → Shipped (commands command_of reporting) read_by (map string_bytes words.now) fetched.now sink left.stage
        left.fetched.now.texts left.read_faults left.write_faults (sink_seen out.new.faults out.new.took) }
{
    let mut shelf = FileShelf::new(files, alloc, fetched);
    let status = run(alloc, words, &mut shelf, out);
    (status, shelf)
}
