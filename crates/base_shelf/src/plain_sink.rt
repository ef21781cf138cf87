//! A sink in memory without faults.

ghost use Rattle.std.specs.Prelude.{◌≡◌, [], length, true, IfOk};
ghost use Rattle.base_shelf.specs.Sink.{SinkStep};
ghost use Rattle.base_shelf.specs.PlainShelf.{NeverFails};
ghost use Rattle.base_shelf.specs.PlainSink.{plain_sink_of};

use crate::fault::IoErr;
use crate::sink::Sink;
use std::alloc::Global;
use std::marker::Model;

/// A sink that keeps its bytes in memory, and takes all that it is asked to.
#[derive(Drop)]
pub struct PlainSink {
    bytes: Vec<u8>,
}

impl Model for PlainSink {
    ghost use Rattle.std.specs.Prelude.{ℕ, List};

    ghost Value = { List ℕ };

    ghost view = { λ s. s.bytes.items };
}

impl PlainSink {
    /// An empty sink.
    pub fn new(alloc: Global) -> PlainSink
        ensures { result ≡ [] }
    {
        PlainSink {
            bytes: Vec::new(alloc),
        }
    }

    /// The bytes so far.
    pub fn bytes(&self) -> &[u8]
        ensures { result.now ≡ self.now }
    {
        self.bytes.as_slice()
    }
}

impl Sink for PlainSink {
    ghost use Rattle.base_shelf.specs.PlainSink.{plain_sink_of};

    ghost told = { true };

    ghost view = { plain_sink_of };

    fn write(&mut self, bytes: &[u8]) -> Result<usize, IoErr>
        ensures step { SinkStep true (plain_sink_of self.old) (plain_sink_of self.new) bytes.now result }
        ensures never { NeverFails result }
        ensures all { IfOk result (λ n. n ≡ length bytes.now) }
    {
        self.bytes.extend_from_slice(bytes)?;
        Ok(bytes.len())
    }

    /// Shows nothing.
    fn progress(&mut self, _done: usize, _all: usize)
        ensures { self.new ≡ self.old }
    {}
}
