//! The check of a certificate.

ghost use Rattle.std.specs.Prelude.{◌≡◌, ◌↔◌, IfErr, IfOk, IsTrue, List, MatchResult};
ghost use Rattle.design_circuit.specs.declared.waveform.Written.{Written};
ghost use Rattle.design_circuit.specs.Circuit.{job_in};
ghost use Rattle.design_circuit.specs.Handed.{IsHandedIn};
ghost use Rattle.wave_proved.specs.Contents.{AreLimits, nothing_of};
ghost use Rattle.cert_check.specs.declared.refusal.CheckErr.TheVariants.{Memory as OutOfMemory};
ghost use Rattle.cert_check.specs.Checked.{AreNumbers, IsAccepted, IsChecked, IsRefusalOf};

use crate::refusal::{CertFault, CheckErr};
use crate::walk::walk;
use base_lists::Items;
use cert_turns::Condition;
use cert_writer::{Cert, Head};
use design_circuit::{Circuit, Design, History, Stim};
use law_model::Limits;
use std::alloc::Global;
use wave_proved::Wave;

/// A finished wave, and the conditions that a certificate of form 2 states: one for each certain Line place, in place
/// order; none in form 1.
#[derive(Drop)]
pub struct Checked<'a> {
    pub wave: Wave<'a>,
    pub conditions: Items<Condition>,
}

/// A finished wave whose lines are those of the certificate, with the conditions that its turns make; or why there is
/// none, its first fault. `limits` say how places were decided. Takes the memory of the
/// wave, of the lines and of the conditions, and that of one check of a log at a time.
pub fn check_cert<'a>(
    alloc: Global,
    cert: Cert,
    circuit: Circuit<'a>,
    replayed: &'a History,
    limits: Limits,
) -> Result<Checked<'a>, CheckErr>
    requires handed { IsHandedIn (job_in circuit) replayed.now }
    requires limits { AreLimits limits }
    ensures checked { let start = nothing_of circuit.entry replayed.now limits in
        IfOk result (λ checked. IsChecked start cert checked.wave checked.conditions) }
    ensures refused { IfErr result (IsRefusalOf (nothing_of circuit.entry replayed.now limits) cert) }
    ensures accepted { let start = nothing_of circuit.entry replayed.now limits in
        (waveform : List Written) → IsAccepted start cert waveform
        → MatchResult result (λ checked. checked.wave.written ≡ waveform) (λ e. e ≡ OutOfMemory) }
    ensures only { let start = nothing_of circuit.entry replayed.now limits in
        IfOk result (λ checked. IsAccepted start cert checked.wave.written) }
{
    checked_wave(alloc, cert, circuit, replayed, limits)
}

/// The same without the last two clauses, which follow from the others.
fn checked_wave<'a>(
    alloc: Global,
    cert: Cert,
    circuit: Circuit<'a>,
    replayed: &'a History,
    limits: Limits,
) -> Result<Checked<'a>, CheckErr>
    requires handed { IsHandedIn (job_in circuit) replayed.now }
    requires limits { AreLimits limits }
    ensures checked { let start = nothing_of circuit.entry replayed.now limits in
        IfOk result (λ checked. IsChecked start cert checked.wave checked.conditions) }
    ensures refused { IfErr result (IsRefusalOf (nothing_of circuit.entry replayed.now limits) cert) }
{
    let Cert {
        form,
        head,
        entries,
    } = cert;
    if !has_numbers(circuit.design, circuit.stim, limits.conflicts, head) {
        return Err(CheckErr::Refused(CertFault::Header { line: 2 }));
    }
    match Wave::new(alloc, circuit, replayed, limits) {
        Ok(wave) => walk(alloc, form, wave, entries.into_vec()),
        Err(_) => Err(CheckErr::Memory),
    }
}

/// Whether the numbers of a certificate's second line are those of the run.
fn has_numbers(design: &Design, stim: &Stim, conflicts: u32, head: Head) -> bool
    ensures { IsTrue result ↔ AreNumbers design.now stim.now conflicts head }
{
    head.rounds == stim.rounds
        && head.conflicts == conflicts
        && head.moments as usize == stim.times.as_slice().len()
        && head.nets as usize == design.nets.as_slice().len()
}
