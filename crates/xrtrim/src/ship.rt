//! The program over real files, as one call, with its theorem.

ghost use Rattle.std.specs.Prelude.{◌≡◌, ◌≤◌, IfOk, map, string_bytes};
ghost use Rattle.base_files.specs.Seen.{shelf_seen};
ghost use Rattle.base_files.specs.Shipped.{IsFetchedFor, Shipped, start_over};
ghost use Rattle.base_files.specs.Sink.{sink_seen};
ghost use Rattle.base_run.specs.Ends.{Comes};
ghost use Rattle.cmd_trim.specs.Commands.{commands};
ghost use Rattle.cmd_trim.specs.Done.{Done, RefusesText};
ghost use Rattle.xrtrim.specs.Reads.{read_by};

use base_files::{Fetched, FileShelf, OutSink};
use base_lists::Memory;
use cmd_trim::{read_trim_words, run};
use std::alloc::Global;
use std::fs::File;
use std::io::{Eprint, Write};
use std::rt::Files;
use std::time::Clock;

/// Of a file no more is read than this, and the next bytes; a run refuses one that is longer.
const TEXT_BYTES: usize = 1_073_741_824;

/// Reads the files that the words name as inputs, each once.
pub fn fetch<R: Files<File = File>>(
    files: &R,
    alloc: Global,
    words: &[String],
) -> Result<Fetched, Memory>
    ensures { IfOk result (IsFetchedFor commands read_by (map string_bytes words.now)) }
{
    let mut fetched = Fetched::new(alloc, TEXT_BYTES);
    match read_trim_words(alloc, words)? {
        Some(words) => {
            fetched.fetch_all(files, words.files)?;
            Ok(fetched)
        }
        None => Ok(fetched),
    }
}

/// Runs the words on real files, of which the inputs are fetched. Answers the exit status, and the shelf as it was
/// left.
pub fn ship<'a, R: Files<File = File>, W: Write + Drop, P: Clock + Eprint>(
    files: &'a R,
    alloc: Global,
    words: &[String],
    fetched: &'a Fetched,
    out: &mut OutSink<'_, W, P>,
) -> (u8, FileShelf<'a, R>)
    requires { IsFetchedFor commands read_by (map string_bytes words.now) fetched.now }
    ensures comes { let sink = sink_seen out.old.faults out.old.took in let left = result.1 in
        Comes commands (start_over (map string_bytes words.now) fetched.now sink)
        (shelf_seen left.stage left.fetched.now.texts left.read_faults left.write_faults)
        (sink_seen out.new.faults out.new.took) result.0 }
    ensures done { result.0 ≡ 0 → let sink = sink_seen out.old.faults out.old.took in let left = result.1 in
        Done (start_over (map string_bytes words.now) fetched.now sink)
        (shelf_seen left.stage left.fetched.now.texts left.read_faults left.write_faults) }
    ensures refused { 5 ≤ result.0 → result.0 ≤ 19 → let sink = sink_seen out.old.faults out.old.took in
        RefusesText (start_over (map string_bytes words.now) fetched.now sink) result.0 }
    ensures shipped { result.0 ≡ 0 → let sink = sink_seen out.old.faults out.old.took in let left = result.1 in
        Shipped commands read_by (map string_bytes words.now) fetched.now sink left.stage left.fetched.now.texts
        left.read_faults left.write_faults (sink_seen out.new.faults out.new.took) }
{
    let mut shelf = FileShelf::new(files, alloc, fetched);
    let status = run(alloc, words, &mut shelf, out);
    (status, shelf)
}
