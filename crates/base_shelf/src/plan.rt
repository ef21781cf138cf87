//! Which calls of a shelf or a sink in memory fail.

ghost use Rattle.std.specs.Prelude.{◌≡◌, ◌↔◌, IsTrue, OnOk, OnErr};
ghost use Rattle.base_shelf.specs.Plan.{no_calls, called, with_fault, FailsNext};

use base_lists::Memory;
use std::alloc::Global;
use std::marker::Model;

/// How many calls were made, and which are set to fail.
#[derive(Drop)]
pub struct Plan {
    calls: u64,
    fails: Vec<u64>,
}

impl Model for Plan {
    ghost use Rattle.base_shelf.specs.Plan.{PlanView};

    ghost Value = { PlanView };

    ghost view = { λ plan. record { calls = plan.calls; fails = plan.fails.items } };
}

impl Plan {
    /// No call made, and none set to fail.
    pub fn new(alloc: Global) -> Plan
        ensures { result ≡ no_calls }
    {
        Plan {
            calls: 0,
            fails: Vec::new(alloc),
        }
    }

    /// Makes one call more, and says whether it is set to fail. The number of calls stays at the end of its type.
    pub fn call(&mut self) -> bool
        ensures next { self.new ≡ called self.old }
        ensures fails { IsTrue result ↔ FailsNext self.old }
    {
        self.calls = self.calls.saturating_add(1);
        self.fails.contains(&self.calls)
    }

    /// Sets a call to fail, counted from 1.
    pub fn fail_at(&mut self, call: u64) -> Result<(), Memory>
        ensures ok { OnOk result (self.new ≡ with_fault self.old call) }
        ensures err { OnErr result (self.new ≡ self.old) }
    {
        self.fails.push(call)?;
        Ok(())
    }
}
