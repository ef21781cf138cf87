//! A command, run to its end.

ghost use Rattle.std.specs.Prelude.{◌≡◌, List, ℕ, IfOk};
ghost use Rattle.base_run.specs.Ends.{Delivers, LineMade, LinePrinted, MemoryPrinted, Ran, ReportsRefusal};
ghost use Rattle.base_run.specs.Ends.{reporting_of};
ghost use Rattle.base_lists.specs.Text.{line};
ghost use Rattle.base_run.specs.Lines.{read_line, usage_line};
ghost use Rattle.base_run.specs.Phases.{Answer, Phases};
ghost use Rattle.base_run.specs.Prepared.{Prepared, answer_of};
ghost use Rattle.base_run.specs.Rows.{start_with};

use crate::cause::Cause;
use crate::delivery::deliver;
use crate::ready::Ready;
use crate::refusal::Refusal;
use crate::undelivered::Undelivered;
use base_shelf::{Shelf, Sink, WriteErr, print_all};
use std::alloc::{AllocError, Global};

/// The exit statuses that every command has.
const USAGE: u8 = 2;

const READ: u8 = 3;

const WRITE: u8 = 4;

const MEMORY: u8 = 20;

/// A command by its words.
pub trait Prepare {
    type Cause: Cause;

    /// Its phases before the first output.
    ghost phases: { Self → Phases Answer Self.Cause };

    /// Goes through them. The sink is told how far a long one has come, and takes nothing.
    fn prepare<S: Shelf, O: Sink>(
        &self,
        alloc: Global,
        shelf: &mut S,
        out: &mut O,
    ) -> Result<Ready<'_>, Refusal<Self::Cause>>
        ensures prepared { Prepared S.told (phases self.now) answer_of (S.view shelf.old) (S.view shelf.new) result }
        ensures out { O.view out.new ≡ O.view out.old };
}

/// Runs a command, and answers the exit status.
pub fn run_command<W: Prepare, S: Shelf, O: Sink>(
    alloc: Global,
    words: &W,
    shelf: &mut S,
    out: &mut O,
) -> u8
    ensures { (line : List (List ℕ)) → let start = start_with line S.told O.told (S.view shelf.old) (O.view out.old) in
        Ran (W.phases words.now) (reporting_of W.Cause.status_of W.Cause.text_of) start (S.view shelf.new)
        (O.view out.new) result }
{
    match words.prepare(alloc, shelf, out) {
        Ok(ready) => deliver_ready(shelf, out, &ready),
        Err(refusal) => refuse(alloc, refusal, out),
    }
}

/// Delivers what is ready.
fn deliver_ready<S: Shelf, O: Sink>(shelf: &mut S, out: &mut O, ready: &Ready<'_>) -> u8
    ensures { Delivers S.told O.told (answer_of ready.now)
        (S.view shelf.old) (S.view shelf.new) (O.view out.old) (O.view out.new) result }
{
    match deliver(shelf, out, ready.outputs.as_slice(), &ready.report) {
        Ok(()) => 0,
        Err(Undelivered::Fault(line)) => print_line(out, line, WRITE),
        Err(Undelivered::Memory) => refuse_memory(out),
    }
}

/// Reports a refusal. A fault of the sink doesn't change its status.
fn refuse<C: Cause, O: Sink>(alloc: Global, refusal: Refusal<C>, out: &mut O) -> u8
    ensures { ReportsRefusal C.status_of C.text_of O.told refusal (O.view out.old) (O.view out.new) result }
{
    match refusal {
        Refusal::Read { name } => match read_line_of(alloc, name.as_str()) {
            Ok(line) => print_line(out, line.as_slice(), READ),
            Err(_) => refuse_memory(out),
        },
        Refusal::Long { cause } => refuse_texts(alloc, &cause, out),
        Refusal::Text { cause } => refuse_texts(alloc, &cause, out),
        Refusal::Memory => refuse_memory(out),
    }
}

/// Reports why texts are refused.
fn refuse_texts<C: Cause, O: Sink>(alloc: Global, cause: &C, out: &mut O) -> u8
    ensures { LineMade O.told (line (C.text_of cause.now)) (C.status_of cause.now) (O.view out.old)
        (O.view out.new) result }
{
    match cause.line(alloc) {
        Ok(line) => print_line(out, line.as_slice(), cause.status()),
        Err(_) => refuse_memory(out),
    }
}

/// Reports that the words aren't in the set.
pub fn refuse_words<O: Sink>(out: &mut O) -> u8
    ensures { LinePrinted O.told usage_line 2 (O.view out.old) (O.view out.new) result }
{
    print_line(out, b"refused: usage\n", USAGE)
}

/// Reports that memory ran out.
pub fn refuse_memory<O: Sink>(out: &mut O) -> u8
    ensures { MemoryPrinted O.told (O.view out.old) (O.view out.new) result }
{
    let _ = print_all(out, b"refused: memory\n");
    MEMORY
}

/// Prints a ready line, and answers the status, or that of want of memory.
fn print_line<O: Sink>(out: &mut O, line: &[u8], status: u8) -> u8
    ensures { LinePrinted O.told line.now status (O.view out.old) (O.view out.new) result }
{
    match print_all(out, line) {
        Err(WriteErr::Memory) => MEMORY,
        _ => status,
    }
}

/// The line that reported that the input of this name couldn't be read.
fn read_line_of(alloc: Global, name: &str) -> Result<Vec<u8>, AllocError>
    ensures { IfOk result (λ line. line.items ≡ read_line name.now) }
{
    let mut line = Vec::new(alloc);
    line.extend_from_slice(b"refused: cannot read ")?;
    line.extend_from_slice(name.as_bytes())?;
    line.push(b'\n')?;
    Ok(line)
}
