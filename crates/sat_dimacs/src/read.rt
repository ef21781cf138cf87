//! Formulas and logs by their texts.

ghost use Rattle.std.specs.Prelude.{◌≡◌, ◌+◌, ◌≤◌, length, Err, None, IfErr, IfOk, IfSome};
ghost use Rattle.std.specs.List.{All};
ghost use Rattle.sat_proof.specs.Assignment.{HasNoZero};
ghost use Rattle.sat_proof.specs.Log.{Fit};
ghost use Rattle.sat_dimacs.specs.Faults.{IsCnfFault, IsLogFault, fault_in};
ghost use Rattle.sat_dimacs.specs.Grammar.{IsCnfText, IsLogText};
ghost use Rattle.sat_dimacs.specs.Laws.{CnfIsRead, CnfIsRefused, LogIsRead, LogIsRefused, OwnCnfIsRead, OwnLogIsRead};
ghost use Rattle.sat_dimacs.specs.Lines.{on_line, words_from, words_in, words_of_line};
ghost use Rattle.base_scan.specs.declared.gap.Gap.TheVariants.{White};
ghost use Rattle.sat_dimacs.specs.Machine as spec;
ghost use Rattle.sat_dimacs.specs.Reading.{ReadsDimacs};

use crate::header::{Header, read_header};
use crate::kind::Kind;
use crate::lines::Lines;
use crate::progress::Progress;
use crate::refusal::DimacsErr;
use crate::words::Words;
use base_lists::Items;
use base_scan::Gap;
use sat_proof::{Clause, Cnf, Log};
use std::alloc::Global;

/// The formula that a text stands for, or the text's first fault. Takes the memory of the clauses, whatever number the
/// header says.
pub fn read_cnf(alloc: Global, bytes: &[u8]) -> Result<Cnf, DimacsErr>
    // What is read is what the text stands for, and what it stands for is read, unless memory runs out.
    ensures found { IfOk result (λ cnf. IsCnfText bytes.now cnf.vars cnf.clauses) }
    ensures only { CnfIsRead bytes.now result }

    // What `write_cnf` writes of a formula is read as it.
    ensures own { OwnCnfIsRead bytes.now result }

    // A refusal is the text's first fault, and a text that has one is refused for it, unless memory runs out.
    ensures first { IfErr result (λ e. IfSome (fault_in e) (IsCnfFault bytes.now)) }
    ensures refused { CnfIsRefused bytes.now result }
{
    read_formula(alloc, bytes)
}

/// The log over a given number of variables that a text stands for, or the text's first fault. Takes the memory of the
/// clauses.
pub fn read_log(alloc: Global, bytes: &[u8], vars: u32) -> Result<Log, DimacsErr>
    requires { vars ≤ 2147483647 }
    // What is read is what the text stands for, and what it stands for is read, unless memory runs out.
    ensures found { IfOk result (IsLogText bytes.now vars) }
    ensures fit { IfOk result (Fit vars) }
    ensures only { LogIsRead bytes.now vars result }

    // What `write_log` writes of a log is read as it.
    ensures own { OwnLogIsRead bytes.now vars result }

    // A refusal is the text's first fault, and a text that has one is refused for it, unless memory runs out.
    ensures first { IfErr result (λ e. IfSome (fault_in e) (IsLogFault bytes.now vars)) }
    ensures refused { LogIsRefused bytes.now vars result }
{
    read_clauses_of_log(alloc, bytes, vars)
}

fn read_formula(alloc: Global, bytes: &[u8]) -> Result<Cnf, DimacsErr>
    ensures ok { IfOk result (λ cnf. spec.formula_in bytes.now ≡ spec.formula_of cnf.vars cnf.clauses) }
    ensures err { IfErr result (λ e. IfSome (fault_in e) (λ fault. spec.formula_in bytes.now ≡ Err fault)) }
{
    let mut lines = Lines::new(bytes);
    let header = read_header(&mut lines)?;
    let clauses = read_clauses(
        alloc,
        Kind::OfCnf,
        header.vars,
        Some(header.count),
        &mut lines,
    )?;
    Ok(Cnf {
        vars: header.vars,
        clauses,
    })
}

fn read_clauses_of_log(alloc: Global, bytes: &[u8], vars: u32) -> Result<Log, DimacsErr>
    requires { vars ≤ 2147483647 }
    ensures reads { ReadsDimacs (spec.log_in bytes.now vars) result }
    ensures fit { IfOk result (Fit vars) }
{
    let mut lines = Lines::new(bytes);
    let clauses = read_clauses(alloc, Kind::OfLog, vars, None, &mut lines)?;
    Ok(Log::from_vec(clauses.into_vec()))
}

/// The clauses of the lines that are left.
fn read_clauses(
    alloc: Global,
    kind: Kind,
    vars: u32,
    count: Option<u64>,
    lines: &mut Lines<'_>,
) -> Result<Items<Clause>, DimacsErr>
    requires { vars ≤ 2147483647 }
    ensures reads { ReadsDimacs (spec.clauses_in kind (spec.start vars count) lines.old) result }
    ensures fit { IfOk result (Fit vars) }
    ensures no_zero { IfOk result (All HasNoZero) }
{
    let start = Progress::new(alloc, vars, count);
    let progress = read_lines(alloc, kind, start, lines)?;
    progress.finish(lines.number())
}

fn read_lines(
    alloc: Global,
    kind: Kind,
    start: Progress,
    lines: &mut Lines<'_>,
) -> Result<Progress, DimacsErr>
    ensures reads { ReadsDimacs (spec.reach start (words_from kind lines.old.number lines.old.lines)) result }
    ensures after { IfOk result (λ _. lines.new.number ≡ lines.old.number + length lines.old.lines) }
{
    let mut progress = start;
    'lines: loop {
        let number = lines.number();
        match lines.next() {
            None => return Ok(progress),
            Some(line) => progress = read_line(alloc, kind, progress, number, line)?,
        }
    }
}

fn read_line(
    alloc: Global,
    kind: Kind,
    progress: Progress,
    number: usize,
    line: &[u8],
) -> Result<Progress, DimacsErr>
    ensures { ReadsDimacs (spec.reach progress (words_of_line kind number line.now)) result }
{
    if kind.passes(line) {
        Ok(progress)
    } else {
        read_words(alloc, progress, number, line)
    }
}

fn read_words(
    alloc: Global,
    start: Progress,
    number: usize,
    line: &[u8],
) -> Result<Progress, DimacsErr>
    ensures { ReadsDimacs (spec.reach start (on_line number (words_in White line.now))) result }
{
    let mut progress = start;
    let mut words = Words::new(line, Gap::White);
    'words: while let Some(word) = words.next() {
        progress = progress.step(alloc, number, word)?;
    }
    Ok(progress)
}
