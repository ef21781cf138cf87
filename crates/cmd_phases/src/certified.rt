//! The certificate that a text says, and its check.

ghost use Rattle.std.specs.Prelude.{◌≡◌, IfErr, IfOk};
ghost use Rattle.design_circuit.specs.Filling.{IsPlace};
ghost use Rattle.cmd_job.specs.Compared.{job_for};
ghost use Rattle.base_run.specs.Prepared.{IsJudgedBy, Judged, Prepared};
ghost use Rattle.wave_proved.specs.Contents.{AreLimits};
ghost use Rattle.cmd_phases.specs.Certificate.{CertificateComes, CheckComes, IsCertified, IsMissingAt, lack_of};
ghost use Rattle.cmd_phases.specs.Certificate.{uncertified_by};
ghost use Rattle.cmd_phases.specs.Phases.{certificate_phases, itself, uncertified_cause};

use crate::cause::{Lack, Refused, Uncertified};
use crate::forced::TEXT_BYTES;
use crate::objection::objection_of;
use crate::parts::Agreed;
use base_lists::Memory;
use base_run::{Refusal, read_input};
use base_shelf::Shelf;
use cert_check::{Cert, CertErr, CertFault, CheckErr, Checked, check_cert, read_cert};
use design_circuit::{Bytes, Circuit, Place};
use law_model::Limits;
use std::alloc::Global;

/// The certificate that the file of this name says.
pub fn certificate_of<S: Shelf>(
    alloc: Global,
    shelf: &mut S,
    name: &str,
) -> Result<Cert, Refusal<Refused>>
    ensures { Prepared S.told (certificate_phases name.now) itself (S.view shelf.old) (S.view shelf.new) result }
{
    let text = read_input(alloc, shelf, name, TEXT_BYTES, Refused::LongCertificate)?;
    certificate_in(alloc, text.as_slice())
}

/// The certificate that a text says.
fn certificate_in(alloc: Global, text: &[u8]) -> Result<Cert, Refusal<Refused>>
    ensures { Judged (CertificateComes text.now) uncertified_cause itself result }
{
    match read_cert(alloc, text) {
        Ok(cert) => Ok(cert),
        Err(CertErr::Refused(fault)) => Err(Refusal::Text {
            cause: Refused::Certificate(Uncertified::Line(fault)),
        }),
        Err(CertErr::Memory) => Err(Refusal::Memory),
    }
}

/// The finished wave of a certificate of a job that agrees, and the conditions that it states.
#[tactic(auto, using(crate::proofs::Jobs::circuit_fits))]
pub fn certified_wave<'b>(
    alloc: Global,
    agreed: &'b Agreed,
    cert: Cert,
    limits: Limits,
) -> Result<Checked<'b>, Refusal<Refused>>
    requires limits { AreLimits limits }
    ensures certified { IfOk result (λ checked.
        IsCertified limits agreed.now.parts cert checked.wave checked.conditions) }
    ensures refused { IfErr result (IsJudgedBy (CheckComes limits agreed.now.parts cert) itself) }
{
    let netlist = &agreed.parts.netlist;
    let stim = &agreed.parts.recorded.stim;
    let circuit = Circuit {
        design: &netlist.design,
        order: &netlist.order,
        stim,
    };
    match check_cert(alloc, cert, circuit, &agreed.history, limits) {
        Ok(checked) => Ok(checked),
        Err(CheckErr::Refused(fault)) => Err(Refusal::Text {
            cause: Refused::Certificate(uncertified_by(alloc, agreed, fault)?),
        }),
        Err(CheckErr::Optimistic(found)) => Err(Refusal::Text {
            cause: Refused::Optimistic(objection_of(alloc, netlist, stim, &found)?),
        }),
        Err(CheckErr::Memory) => Err(Refusal::Memory),
    }
}

/// Why a certificate is refused, with the names of a place that lacks its line.
fn uncertified_by(alloc: Global, agreed: &Agreed, fault: CertFault) -> Result<Uncertified, Memory>
    requires { IsMissingAt (job_for agreed.now.parts.netlist agreed.now.parts.recorded) fault }
    ensures { IfOk result (λ cause. cause ≡ uncertified_by agreed.now.parts fault) }
{
    match fault {
        CertFault::Missing { place } => Ok(Uncertified::Lacks(lack_of(alloc, agreed, place)?)),
        other => Ok(Uncertified::Line(other)),
    }
}

fn lack_of(alloc: Global, agreed: &Agreed, place: Place) -> Result<Lack, Memory>
    requires { IsPlace (job_for agreed.now.parts.netlist agreed.now.parts.recorded) place }
    ensures { IfOk result (λ lack. lack ≡ lack_of agreed.now.parts place) }
{
    let stim = &agreed.parts.recorded.stim;
    let moment = place.step / stim.rounds;
    let name = agreed.parts.netlist.design.written_name(alloc, place.net)?;
    Ok(Lack {
        time: stim.times.as_slice()[moment as usize],
        round: place.step % stim.rounds,
        name: Bytes::from_vec(name),
    })
}
