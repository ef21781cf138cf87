//! A formula and a log by their texts, and whether the log refutes the formula.

ghost use Rattle.std.specs.Prelude.{◌≡◌, ◌≤◌, length, IfErr, IfOk, IfSome};
ghost use Rattle.sat_proof.specs.Log.{Fit};
ghost use Rattle.sat_prove.specs.Proof.{IsChecked, IsProofAnswer, IsProof, IsProofFault, IsUnchecked, fault_in};

use crate::fault::ProofFault;
use crate::refusal::ProofErr;
use base_lists::Memory;
use sat_dimacs::{read_cnf, read_log};
use sat_proof::{Checker, Cnf, Log};
use std::alloc::Global;

/// How many clauses the log has that a text stands for, where it refutes the formula that the other stands for; or the
/// first fault. Takes the memory of the clauses, 100 bytes for each variable of the formula and 24 for each clause.
pub fn check_proof(alloc: Global, cnf: &[u8], log: &[u8]) -> Result<usize, ProofErr>
    ensures found { IfOk result (IsProof cnf.now log.now) }
    ensures fault { IfErr result (λ e. IfSome (fault_in e) (IsProofFault cnf.now log.now)) }
    // Nothing else is answered, unless memory runs out.
    ensures exact { IsProofAnswer cnf.now log.now result }
{
    read_and_check(alloc, cnf, log)
}

fn read_and_check(alloc: Global, cnf: &[u8], log: &[u8]) -> Result<usize, ProofErr>
    ensures found { IfOk result (IsProof cnf.now log.now) }
    ensures fault { IfErr result (λ e. IfSome (fault_in e) (IsProofFault cnf.now log.now)) }
{
    let formula = read_cnf(alloc, cnf)?;
    let lines = read_log(alloc, log, formula.vars)?;
    check_log(alloc, &formula, lines)
}

fn check_log(alloc: Global, formula: &Cnf, lines: Log) -> Result<usize, ProofErr>
    requires { Fit formula.now.vars lines }
    ensures found { IfOk result (IsChecked formula.now.clauses lines) }
    ensures fault { IfErr result (λ e. IfSome (fault_in e) (IsUnchecked formula.now.clauses lines)) }
{
    let count = lines.as_slice().len();
    let mut checker = checker_for(alloc, formula, count)?;
    match checker.check(formula, lines) {
        Ok(proof) => {
            let _ = proof.into_log();
            Ok(count)
        }
        Err(bad) => Err(ProofErr::Refused(ProofFault::Log { clause: bad.line })),
    }
}

/// A checker with room for a formula and a log of so many clauses.
fn checker_for(alloc: Global, formula: &Cnf, count: usize) -> Result<Checker, Memory>
    ensures { IfOk result (λ checker. checker ≡ formula.now.vars) }
{
    let clauses = formula.clauses.as_slice().len().saturating_add(count);
    Checker::with_room(alloc, formula.vars, clauses, 0)
}
