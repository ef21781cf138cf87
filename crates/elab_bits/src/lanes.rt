//! Runs of bits, taken bit by bit.

use crate::run::{Bits, Lane, Run};
use std::marker::Model;

/// The bits of runs that are left, from left to right.
#[derive(Drop)]
pub struct Lanes<'r> {
    run: Run,
    rest: &'r [Run],
}

impl<'r> Model for Lanes<'r> {
    ghost use Rattle.std.specs.Prelude.{List, ◌++◌};
    ghost use Rattle.elab_bits.specs.declared.run.Lane.{Lane};
    ghost use Rattle.elab_bits.specs.Runs.{run_lanes, runs_lanes, AreFew, AreRuns};

    ghost Value = { List Lane };

    ghost view = { λ l. run_lanes l.run ++ runs_lanes l.rest.now };

    ghost invariant = { λ l. AreFew l.run.count l.run.bits × AreRuns l.rest.now };
}

impl<'r> Lanes<'r> {
    ghost use Rattle.std.specs.Prelude.{◌≡◌, ◌∷◌, [], MatchOption};
    ghost use Rattle.elab_bits.specs.Runs.{runs_lanes, AreRuns};

    /// The bits of these runs.
    pub fn new(runs: &'r [Run]) -> Lanes<'r>
        requires { AreRuns runs.now }
        ensures { result ≡ runs_lanes runs.now }
    {
        Lanes {
            run: Run {
                at: 0,
                count: 0,
                bits: Bits::Dead,
            },
            rest: runs,
        }
    }

    /// Takes the leftmost bit away.
    pub fn take(&mut self) -> Option<Lane>
        ensures { MatchOption result (self.old ≡ []) (λ lane. self.old ≡ lane ∷ self.new) }
    {
        if self.run.count > 0 {
            return Some(self.run.take());
        }
        let [run, rest @ ..] = self.rest else {
            return None;
        };
        self.run = *run;
        self.rest = rest;
        Some(self.run.take())
    }
}
