//! A formula and a log, and what the log is worth.

ghost use Rattle.sat_proof.specs.Log.{Fit};

use crate::texts::answer::fault_words;
use base_lists::Memory;
use sat_dimacs::{DimacsErr, read_cnf, read_log};
use sat_proof::{Bad, Checker, Cnf, Log};
use std::alloc::Global;
use test_cases::{PartKind, Report, Section};

/// Compares what the log of a section is worth with what must come.
pub(crate) fn run_section(
    alloc: Global,
    report: &mut Report,
    section: Section<'_>,
) -> Result<(), Memory> {
    let mut cnf = Vec::new(alloc);
    let mut log = Vec::new(alloc);
    for part in section.parts() {
        let content = part.content(alloc)?;
        match part.kind {
            PartKind::Words => {}
            PartKind::File if part.head == b"cnf".as_slice() => cnf = content,
            PartKind::File => log = content,
            PartKind::Want => {
                let mut got = proved(alloc, cnf.as_slice(), log.as_slice())?;
                got.push(b'\n')?;
                report.compare(
                    part.line.saturating_add(1),
                    content.as_slice(),
                    got.as_slice(),
                )?;
                report.end_case();
            }
        }
    }
    Ok(())
}

fn proved(alloc: Global, cnf: &[u8], log: &[u8]) -> Result<Vec<u8>, Memory> {
    match worth(alloc, cnf, log) {
        Ok(words) => Ok(words),
        Err(DimacsErr::Refused(fault)) => Ok(fault_words(alloc, &fault)?),
        Err(DimacsErr::Memory) => Err(Memory),
    }
}

/// How many clauses a log has that refutes, or its first clause that doesn't follow.
fn worth(alloc: Global, cnf: &[u8], log: &[u8]) -> Result<Vec<u8>, DimacsErr> {
    let cnf = read_cnf(alloc, cnf)?;
    let log = read_log(alloc, log, cnf.vars)?;
    let words = check(alloc, &cnf, log).map_err(|_| DimacsErr::Memory)?;
    Ok(words)
}

fn check(alloc: Global, cnf: &Cnf, log: Log) -> Result<Vec<u8>, Memory>
    requires { Fit cnf.now.vars log }
{
    let clauses = log.as_slice().len();
    let mut checker = Checker::new(alloc, cnf.vars)?;
    match checker.check(cnf, log) {
        Ok(token) => {
            let _ = token.into_log();
            Ok(format!(in alloc; "refuted {clauses}")?.into_bytes())
        }
        Err(Bad { line, .. }) => Ok(format!(in alloc; "log clause {line}")?.into_bytes()),
    }
}
