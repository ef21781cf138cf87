//! A writer as a sink, with how far a long run has come on standard error.

ghost use Rattle.std.specs.Prelude.{◌≡◌, []};

use crate::noted::write_noted;
use crate::progress::Progress;
use base_shelf::{FaultCount, IoErr, Sink};
use base_trace::Record;
use std::io::{Eprint, Write};
use std::time::Clock;

/// A writer as a sink. It counts its faults, and reports the bytes that its writer took.
#[derive(Drop)]
pub struct OutSink<'a, W: Write + Drop, R: Clock + Eprint> {
    writer: W,
    faults: FaultCount,
    took: Record,
    progress: Progress<'a, R>,
}

impl<'a, W: Write + Drop, R: Clock + Eprint> OutSink<'a, W, R> {
    /// A sink that prints by this writer: nothing taken, and no fault counted.
    pub fn new(writer: W, progress: Progress<'a, R>) -> OutSink<'a, W, R>
        ensures faults { result.faults ≡ 0 }
        ensures took { result.took.entries ≡ [] }
    {
        OutSink {
            writer,
            faults: FaultCount::new(),
            took: Record::new(),
            progress,
        }
    }

    /// Ends the line that shows how far a run has come.
    pub fn end(&self) {
        self.progress.end();
    }
}

impl<'a, W: Write + Drop, R: Clock + Eprint> Sink for OutSink<'a, W, R> {
    ghost use Rattle.std.specs.Prelude.{true};
    ghost use Rattle.base_files.specs.Sink.{sink_seen};

    ghost told = { true };

    ghost view = { λ s. sink_seen s.faults s.took };

    fn write(&mut self, bytes: &[u8]) -> Result<usize, IoErr> {
        match write_noted(&mut self.writer, bytes, &[], &mut self.took) {
            Ok(count) => Ok(count),
            Err(_) => {
                self.faults.rise();
                Err(IoErr::Failed)
            }
        }
    }

    fn progress(&mut self, done: usize, all: usize) {
        self.progress.show(done, all);
    }
}
