//! The check of a log against a formula, and what is printed.

ghost use Rattle.std.specs.Prelude.{◌≡◌, IfOk};
ghost use Rattle.sat_prove.specs.Proof.{ProofComes};
ghost use Rattle.base_run.specs.Prepared.{Judged, Prepared, PreparedAlone, answer_of};
ghost use Rattle.cmd_program.specs.Prove.{log_phases, proof_phases, prove_answer, prove_values, refuted_line};
ghost use Rattle.cmd_phases.specs.Phases.{itself, proof_cause};

use crate::checked::ready_with;
use crate::commands::prove::Prove;
use base_lists::{Memory, put, put_number};
use base_run::{Ready, Refusal, Report, read_input};
use base_shelf::Shelf;
use cmd_phases::{Refused, TEXT_BYTES};
use sat_prove::{ProofErr, check_proof};
use std::alloc::Global;

/// The check of the log against a formula's text.
pub fn prove_cnf<'a, S: Shelf>(
    alloc: Global,
    shelf: &mut S,
    words: &Prove<'a>,
    cnf: &[u8],
) -> Result<Ready<'a>, Refusal<Refused>>
    ensures { Prepared S.told (log_phases (prove_values words.now) cnf.now) answer_of
        (S.view shelf.old) (S.view shelf.new) result }
{
    let log = read_input(alloc, shelf, words.log, TEXT_BYTES, Refused::LongLog)?;
    proved(alloc, cnf, log.as_slice())
}

/// What the texts of a formula and of a log come to.
fn proved<'a>(alloc: Global, cnf: &[u8], log: &[u8]) -> Result<Ready<'a>, Refusal<Refused>>
    ensures { PreparedAlone (proof_phases cnf.now log.now) answer_of result }
{
    let count = count_of(alloc, cnf, log)?;
    Ok(answered(alloc, count)?)
}

/// How many clauses a log has that refutes a formula.
fn count_of(alloc: Global, cnf: &[u8], log: &[u8]) -> Result<usize, Refusal<Refused>>
    ensures { Judged (ProofComes cnf.now log.now) proof_cause itself result }
{
    match check_proof(alloc, cnf, log) {
        Ok(count) => Ok(count),
        Err(ProofErr::Refused(fault)) => Err(Refusal::Text {
            cause: Refused::Proof(fault),
        }),
        Err(ProofErr::Memory) => Err(Refusal::Memory),
    }
}

/// What is printed of a proof.
fn answered<'a>(alloc: Global, count: usize) -> Result<Ready<'a>, Memory>
    ensures { IfOk result (λ ready. answer_of ready ≡ prove_answer count) }
{
    let text = refuted_line(alloc, count)?;
    Ok(ready_with(alloc, Report::new(alloc, text)?))
}

fn refuted_line(alloc: Global, count: usize) -> Result<Vec<u8>, Memory>
    ensures { IfOk result (λ text. text.items ≡ refuted_line count) }
{
    let mut text = Vec::new(alloc);
    put(&mut text, b"refuted ")?;
    put_number(&mut text, count as u64)?;
    put(&mut text, b"\n")?;
    Ok(text)
}
