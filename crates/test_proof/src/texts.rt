//! Formulas and logs as DIMACS texts, read and written.
//!
//! In `texts/formulas.txt` and `refused.txt` a case is a formula's text, in `logs.txt` a log's over two variables; what must
//! come is the text that is written of what was read, ` / ` for each newline, or the line that is refused and the word.
//! `repeat 0 x` stands for an empty line.
//!
//! ```text
//! p cnf 2 1
//! 1
//! -2 0
//! > p cnf 2 1 / 1 -2 0 /
//! p cnf 2 1
//! 3 0
//! > line 2: range
//! ```
//!
//! In `proved.txt` a case is a section: `< cnf`, `< log`, and `> proved`, what the log is worth. In `drawn.txt` a case
//! is a line: so many formulas are drawn of so many clauses over so many variables, put into a text with white space
//! and comments of all kinds, read, and written; what must come is how many are written as they were drawn.
//!
//! ```text
//! drawn 100 20 5 -> 100
//! ```

mod answer;
mod drawn;
mod proved;

use crate::texts::answer::{formula_words, log_words};
use crate::texts::drawn::run_line;
use crate::texts::proved::run_section;
use base_lists::Memory;
use std::alloc::Global;
use test_cases::{Lines, Report, section_cases, text_cases};

/// Runs the cases of the file of this name in the folder.
pub fn run_file(alloc: Global, report: &mut Report, name: &str, text: &[u8]) -> Result<(), Memory> {
    match name {
        "drawn.txt" => run_lines(alloc, report, text),
        "proved.txt" => run_sections(alloc, report, text),
        "logs.txt" => run_texts(alloc, report, text, true),
        _ => run_texts(alloc, report, text, false),
    }
}

fn run_texts(alloc: Global, report: &mut Report, text: &[u8], logs: bool) -> Result<(), Memory> {
    for case in text_cases(text) {
        let case = case.read(alloc)?;
        let got = if logs {
            log_words(alloc, case.input.as_slice())?
        } else {
            formula_words(alloc, case.input.as_slice())?
        };
        report.compare(case.line, case.want.as_slice(), got.as_slice())?;
        report.end_case();
    }
    Ok(())
}

fn run_sections(alloc: Global, report: &mut Report, text: &[u8]) -> Result<(), Memory> {
    for section in section_cases(text) {
        run_section(alloc, report, section)?;
    }
    Ok(())
}

fn run_lines(alloc: Global, report: &mut Report, text: &[u8]) -> Result<(), Memory> {
    for line in Lines::new(text) {
        if !line.is_idle() {
            run_line(alloc, report, line)?;
        }
    }
    Ok(())
}
