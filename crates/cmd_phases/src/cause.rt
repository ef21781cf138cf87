//! Why texts are refused.

use crate::line::line_of;
use base_lists::Memory;
use base_run::Cause;
use cert_check::CertFault;
use cmd_job::{CompareRefusal, NetlistRefusal, RecordingRefusal};
use design_cell::Value;
use design_circuit::Bytes;
use replay_code::CodeFault;
use report_fix::StartFault;
use sat_prove::ProofFault;
use std::alloc::Global;

/// A place that the replay knows and that is found otherwise, as its line has it.
#[derive(Debug, Drop)]
pub struct Objection {
    /// The time of its moment, in ticks.
    pub time: u64,
    /// The round within the moment, from 0.
    pub round: u32,
    /// The written name of its net.
    pub name: Bytes,
    pub replayed: Value,
    /// What is found, x for an unknown place.
    pub found: Value,
    /// How many of the places before it are marked undecided by a line of their own.
    pub undecided: usize,
}

/// A place that lacks its line in a certificate, as the line of the refusal has it.
#[derive(Debug, Drop)]
pub struct Lack {
    /// The time of its moment, in ticks.
    pub time: u64,
    /// The round within the moment, from 0.
    pub round: u32,
    /// The written name of its net.
    pub name: Bytes,
}

/// Why a certificate is refused.
#[derive(Debug, Drop)]
pub enum Uncertified {
    /// One of its lines is wrong.
    Line(CertFault),
    /// A place lacks its line.
    Lacks(Lack),
}

/// Why texts are refused.
#[derive(Debug, Drop)]
pub enum Refused {
    /// The joined netlist has more than 67,108,864 bytes.
    LongNetlist,
    /// The netlist's text stands for no design with an order.
    Netlist(NetlistRefusal),
    /// The recording has more than 268,435,456 bytes.
    LongRecording,
    /// The recording's text is none of the grammar, or doesn't fit the design.
    Recording(RecordingRefusal),
    /// The recording and the replay of its inputs differ.
    Compare(CompareRefusal),
    /// A place that the replay knows is found otherwise.
    Optimistic(Objection),
    /// The code has more than 2^63 - 1 bytes.
    LongCode,
    /// The code is none of the grammar, or doesn't fit the job.
    Code(CodeFault),
    /// The certificate has more than 2^63 - 1 bytes.
    LongCertificate,
    /// The certificate is none of the grammar, or isn't one of the job.
    Certificate(Uncertified),
    /// The text of a formula has more than 2^63 - 1 bytes.
    LongCnf,
    /// The text of a log has more than 2^63 - 1 bytes.
    LongLog,
    /// The texts of a formula and of a log aren't a proof.
    Proof(ProofFault),
    /// A start can't be set.
    Start(StartFault),
}

impl Cause for Refused {
    ghost use Rattle.cmd_phases.specs.Cause as spec;

    ghost status_of = { spec.status_of };

    ghost text_of = { spec.text_of };

    fn status(&self) -> u8 {
        match self {
            Refused::LongNetlist => 11,
            Refused::Netlist(cause) => cause.status(),
            Refused::LongRecording => 11,
            Refused::Recording(cause) => cause.status(),
            Refused::Compare(cause) => cause.status(),
            Refused::Optimistic(_) => 10,
            Refused::LongCode => 11,
            Refused::Code(_) => 12,
            Refused::LongCertificate => 11,
            Refused::Certificate(_) => 13,
            Refused::LongCnf => 11,
            Refused::LongLog => 11,
            Refused::Proof(fault) => fault.status(),
            Refused::Start(_) => 17,
        }
    }

    fn line(&self, alloc: Global) -> Result<Vec<u8>, Memory> {
        line_of(alloc, self)
    }
}
