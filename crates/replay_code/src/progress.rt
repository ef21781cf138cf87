//! What was read of a code text so far.

use crate::code::Code;
use crate::lookup::moment_from;
use crate::statements::Statements;
use base_lists::Memory;
use design_circuit::Event;
use recording_binding::Names;
use std::alloc::Global;
use std::marker::Model;

/// What was read so far.
#[derive(Drop)]
pub struct Progress<'a> {
    pub code: Code<'a>,
    /// The design's nets by their names.
    pub names: Names<'a>,
    pub time: u64,
    /// The moment at that time.
    pub moment: Option<usize>,
    pub round: u32,
    /// Whether the statement in hand forces; else it releases.
    pub forces: bool,
    /// The byte of its first name.
    pub at: usize,
    /// Its names.
    pub texts: Vec<&'a [u8]>,
    /// The index behind them; one that isn't below 2^31 stands as 2^31.
    pub index: Option<u32>,
    pub statements: Statements,
}

impl<'a> Model for Progress<'a> {
    ghost use Rattle.std.specs.Prelude.{◌≡◌, List, ℕ, length, map};
    ghost use Rattle.std.specs.Borrow.{Bor};
    ghost use Rattle.replay_code.specs.Machine.{Progress as Read};
    ghost use Rattle.replay_code.specs.View.{code_of};

    ghost Value = { Read };

    ghost view = { λ p. record {
      code = code_of p.code;
      time = p.time;
      moment = p.moment;
      round = p.round;
      forces = p.forces;
      at = p.at;
      texts = map (λ (text : Bor (List ℕ)). text.now) p.texts.items;
      index = p.index;
      events = p.statements.events;
    } };

    ghost invariant = { λ p. (p.names ≡ p.code.design.now) × (p.statements.nets ≡ length p.code.design.now.nets) };
}

impl<'a> Progress<'a> {
    ghost use Rattle.std.specs.Prelude.{◌≡◌, IfOk};
    ghost use Rattle.std.specs.List.Sorted.{IsStrictlyIncreasing};
    ghost use Rattle.design_circuit.specs.Design.{FitsDesign};
    ghost use Rattle.replay_code.specs.Machine.{begun};
    ghost use Rattle.replay_code.specs.View.{code_of};

    /// Before the first token the time is 0. Takes the names of the nets.
    pub fn new(alloc: Global, code: Code<'a>) -> Result<Progress<'a>, Memory>
        requires design { FitsDesign code.design.now }
        requires times { IsStrictlyIncreasing code.stim.now.times }
        ensures { IfOk result (λ p. p ≡ begun (code_of code.entry)) }
    {
        Ok(Progress {
            code,
            names: Names::new(alloc, code.design)?,
            time: 0,
            moment: moment_from(code.stim, 0, 0),
            round: 0,
            forces: false,
            at: 0,
            texts: Vec::new(alloc),
            index: None,
            statements: Statements::new(alloc, code.design.nets.as_slice().len())?,
        })
    }
    /// The events of the statements.
    pub fn into_events(self) -> Vec<Event>
        ensures { result.items ≡ self.entry.events }
    {
        let Progress { statements, .. } = self;
        statements.into_events()
    }
}
