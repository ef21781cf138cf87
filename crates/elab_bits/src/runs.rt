//! The bits of an expression.

ghost use Rattle.std.specs.Prelude.{◌≡◌, length};
ghost use Rattle.elab_bits.specs.Runs.{runs_lanes};

use crate::lanes::Lanes;
use crate::run::{Bits, Lane, Run};
use std::alloc::{AllocError, Global};
use std::marker::Model;

/// The bits of an expression from left to right. Takes memory for each of its parts, and none for each bit.
#[derive(Drop)]
pub struct Runs {
    runs: Vec<Run>,
}

impl Model for Runs {
    ghost use Rattle.std.specs.Prelude.{List};
    ghost use Rattle.elab_bits.specs.declared.run.Lane.{Lane};
    ghost use Rattle.elab_bits.specs.Runs.{runs_lanes, AreRuns};

    ghost Value = { List Lane };

    ghost view = { λ r. runs_lanes r.runs.items };

    ghost invariant = { λ r. AreRuns r.runs.items };
}

impl Runs {
    ghost use Rattle.std.specs.Prelude.{◌≡◌, ◌≤◌, ◌<◌, ◌+◌, ◌^◌, ◌∷◌, ◌++◌, ◌==◌, [], IfOk, OnOk, length};
    ghost use Rattle.design_circuit.specs.declared.design.Pin.TheVariants.{Dead as DeadPin};
    ghost use Rattle.elab_bits.specs.Lanes.{lane, lanes_in, literal_lanes, single};
    ghost use Rattle.elab_bits.specs.Runs.{AreFew, run_lanes};

    /// No bits.
    pub fn new(alloc: Global) -> Runs
        ensures { result ≡ [] }
    {
        Runs {
            runs: Vec::new(alloc),
        }
    }

    /// So many nets, numbered from the first on, of the part at this byte.
    pub fn of_nets(alloc: Global, at: usize, first: u32, count: u32) -> Result<Runs, AllocError>
        requires { first + count ≤ 2 ^ 20 }
        ensures { IfOk result (λ runs. runs ≡ lanes_in at first count) }
    {
        let mut runs = Runs::new(alloc);
        runs.push_nets(at, first, count)?;
        Ok(runs)
    }

    /// Puts nets behind the bits.
    pub fn push_nets(&mut self, at: usize, first: u32, count: u32) -> Result<(), AllocError>
        requires { first + count ≤ 2 ^ 20 }
        ensures { OnOk result (self.new ≡ self.old ++ lanes_in at first count) }
    {
        self.push(Run {
            at,
            count,
            bits: Bits::Nets(first),
        })
    }

    /// Puts the bits of a literal behind the bits.
    pub fn push_literal(&mut self, at: usize, size: u32, value: u128) -> Result<(), AllocError>
        ensures { OnOk result (self.new ≡ self.old ++ literal_lanes at size value) }
    {
        self.push(Run {
            at,
            count: size,
            bits: Bits::Literal(value),
        })
    }

    /// Puts a dead pin behind the bits.
    pub fn push_dead(&mut self, at: usize) -> Result<(), AllocError>
        ensures { OnOk result (self.new ≡ self.old ++ lane at DeadPin ∷ []) }
    {
        self.push(Run {
            at,
            count: 1,
            bits: Bits::Dead,
        })
    }

    #[tactic(auto, using(crate::proofs::Running::lanes_more, crate::proofs::Running::runs_more))]
    fn push(&mut self, run: Run) -> Result<(), AllocError>
        requires { AreFew run.count run.bits }
        ensures { OnOk result (self.new ≡ self.old ++ run_lanes run) }
    {
        if run.count > 0 {
            self.runs.push(run)?;
        }
        Ok(())
    }

    /// The bits, to be taken one by one.
    pub fn lanes(&self) -> Lanes<'_>
        ensures { result ≡ self.now }
    {
        Lanes::new(self.runs.as_slice())
    }

    /// Whether there are so many bits. Takes a step for each run.
    pub fn has_width(&self, width: usize) -> bool
        ensures { result ≡ (length self.now == width) }
    {
        width_of(self.runs.as_slice()) == width as u128
    }

    /// Whether there are as many bits here as there. Takes a step for each run.
    pub fn same_width(&self, other: &Runs) -> bool
        ensures { result ≡ (length self.now == length other.now) }
    {
        width_of(self.runs.as_slice()) == width_of(other.runs.as_slice())
    }

    /// The one bit, where there is exactly one.
    #[tactic(auto, using(crate::proofs::Running::single_one, crate::proofs::Running::single_other))]
    pub fn single(&self) -> Option<Lane>
        ensures { result ≡ single self.now }
    {
        if !self.has_width(1) {
            return None;
        }
        let mut lanes = self.lanes();
        lanes.take()
    }
}

/// How many bits the runs have.
#[tactic(auto, using(crate::proofs::Running::width_more))]
fn width_of(runs: &[Run]) -> u128
    ensures { result ≡ length (runs_lanes runs.now) }
{
    let mut width: u128 = 0;
    'runs: for run in runs {
        width += run.count as u128;
    }
    width
}
