//! A sink in memory, whose calls can be set to fail.

ghost use Rattle.std.specs.Prelude.{◌≡◌, ◌≤◌, true, OnOk, OnErr};
ghost use Rattle.base_shelf.specs.Plan.{with_fault};
ghost use Rattle.base_shelf.specs.Sink.{SinkStep};
ghost use Rattle.base_shelf.specs.MemSink.{empty_sink, sink_with_plan, sink_of, MemSinkStep};

use crate::fault::IoErr;
use crate::fault_count::FaultCount;
use crate::plan::Plan;
use crate::sink::Sink;
use base_lists::Memory;
use std::alloc::Global;
use std::marker::Model;

/// A sink that keeps its bytes in memory.
#[derive(Drop)]
pub struct MemSink {
    piece: usize,
    bytes: Vec<u8>,
    plan: Plan,
    faults: FaultCount,
}

impl Model for MemSink {
    ghost use Rattle.std.specs.Prelude.{◌≤◌};
    ghost use Rattle.base_shelf.specs.MemSink.{MemSinkView};

    ghost Value = { MemSinkView };

    ghost view = { λ s. record { piece = s.piece; bytes = s.bytes.items; plan = s.plan; faults = s.faults } };

    ghost invariant = { λ s. 1 ≤ s.piece };
}

impl MemSink {
    /// An empty sink that takes at most `piece` bytes a call.
    pub fn new(alloc: Global, piece: usize) -> MemSink
        requires { 1 ≤ piece }
        ensures { result ≡ empty_sink piece }
    {
        MemSink {
            piece,
            bytes: Vec::new(alloc),
            plan: Plan::new(alloc),
            faults: FaultCount::new(),
        }
    }

    /// The bytes so far.
    pub fn bytes(&self) -> &[u8]
        ensures { result.now ≡ self.now.bytes }
    {
        self.bytes.as_slice()
    }

    /// How many calls failed, which stays at the end of its type.
    pub fn faults(&self) -> u64
        ensures { result ≡ self.now.faults }
    {
        self.faults.count()
    }

    /// Sets a call to fail, counted from 1 over all calls of `Sink` on this sink.
    pub fn fail_at(&mut self, call: u64) -> Result<(), Memory>
        ensures ok { OnOk result (self.new ≡ sink_with_plan self.old (with_fault self.old.plan call)) }
        ensures err { OnErr result (self.new ≡ self.old) }
    {
        self.plan.fail_at(call)
    }
}

impl Sink for MemSink {
    ghost use Rattle.base_shelf.specs.MemSink.{sink_of};

    ghost told = { true };

    ghost view = { sink_of };

    fn write(&mut self, bytes: &[u8]) -> Result<usize, IoErr>
        ensures step { SinkStep true (sink_of self.old) (sink_of self.new) bytes.now result }
        ensures exact { MemSinkStep self.old self.new bytes.now result }
    {
        if self.plan.call() {
            self.faults.rise();
            return Err(IoErr::Failed);
        }
        let count = bytes.len().min(self.piece);
        self.bytes.extend_from_slice(&bytes[..count])?;
        Ok(count)
    }

    /// Shows nothing.
    fn progress(&mut self, _done: usize, _all: usize)
        ensures { self.new ≡ self.old }
    {}
}
