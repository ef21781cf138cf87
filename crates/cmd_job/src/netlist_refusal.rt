//! Why a netlist is refused.

use base_lists::{Items, Memory};
use design_circuit::Bytes;
use elab_nets::{ElabErr, ElabFault};
use netlist_grammar::{NetlistFault, ParseErr};

/// Why a netlist is refused: the first cause, in this order.
#[derive(Debug, Drop)]
pub enum NetlistRefusal {
    /// The text is none of the grammar.
    Grammar { fault: NetlistFault },
    /// The text's tree has no design.
    Design { fault: ElabFault },
    /// The design has a loop of these nets, by their written names, from net to argument.
    Loop { names: Items<Bytes> },
}

/// Why there is no netlist.
#[derive(Debug, Drop)]
pub enum NetlistErr {
    Refused(NetlistRefusal),
    /// There was no memory.
    Memory,
}

impl NetlistRefusal {
    ghost use Rattle.std.specs.Prelude.{◌≡◌};
    ghost use Rattle.cmd_job.specs.Lines.{netlist_status};

    /// The exit status of a run that is refused so.
    pub fn status(&self) -> u8
        ensures { result ≡ netlist_status self.now }
    {
        match self {
            NetlistRefusal::Grammar { .. } => 5,
            NetlistRefusal::Design { .. } => 5,
            NetlistRefusal::Loop { .. } => 6,
        }
    }
}

impl From<ParseErr> for NetlistErr {
    ghost use Rattle.std.specs.Prelude.{◌≡◌};
    ghost use Rattle.cmd_job.specs.Refusals.{grammar_err};

    ghost from_gives = { λ cause e. e ≡ grammar_err cause };

    fn from(cause: ParseErr) -> Self {
        match cause.fault() {
            Some(fault) => NetlistErr::Refused(NetlistRefusal::Grammar { fault }),
            None => NetlistErr::Memory,
        }
    }
}

impl From<ElabErr> for NetlistErr {
    ghost use Rattle.std.specs.Prelude.{◌≡◌};
    ghost use Rattle.cmd_job.specs.Refusals.{design_err};

    ghost from_gives = { λ cause e. e ≡ design_err cause };

    fn from(cause: ElabErr) -> Self {
        match cause.fault() {
            Some(fault) => NetlistErr::Refused(NetlistRefusal::Design { fault }),
            None => NetlistErr::Memory,
        }
    }
}

impl From<Memory> for NetlistErr {
    ghost use Rattle.std.specs.Prelude.{◌≡◌};
    ghost use Rattle.cmd_job.specs.declared.netlist_refusal.NetlistErr.TheVariants.{Memory as OutOfMemory};

    ghost from_gives = { λ _ e. e ≡ OutOfMemory };

    fn from(_: Memory) -> Self {
        NetlistErr::Memory
    }
}
