//! Formulas that are drawn, read in texts of all kinds, and written.

use crate::texts::answer::rewritten;
use base_lists::{Memory, put, put_number};
use sat_dimacs::DimacsErr;
use std::alloc::Global;
use std::str;
use test_cases::{Line, Report};

/// Runs a line `drawn COUNT CLAUSES VARIABLES -> COUNT`.
pub(crate) fn run_line(alloc: Global, report: &mut Report, line: Line<'_>) -> Result<(), Memory> {
    let text = str::from_utf8(line.text).unwrap_or("");
    let (call, want) = text.split_once(" -> ").unwrap_or((text, ""));
    let (_, rest) = first_word(call);
    let (count, rest) = first_word(rest);
    let (clauses, vars) = first_word(rest);
    let held = held(alloc, number_of(count), number_of(clauses), number_of(vars))?;
    let got = format!(in alloc; "{held}")?;
    report.compare(line.number, want.as_bytes(), got.as_str().as_bytes())?;
    report.end_case();
    Ok(())
}

fn first_word(words: &str) -> (&str, &str) {
    words.split_once(' ').unwrap_or((words, ""))
}

fn number_of(word: &str) -> u32 {
    word.parse::<u32>().unwrap_or(0)
}

/// How many of the formulas are written as they were drawn.
fn held(alloc: Global, count: u32, clauses: u32, vars: u32) -> Result<u32, Memory> {
    let mut held: u32 = 0;
    for seed in 0..count {
        let mut drawn = Drawn::new(alloc, seed, vars);
        drawn.put_formula(clauses)?;
        match rewritten(alloc, drawn.mixed.as_slice()) {
            Ok(written) if written == drawn.plain => held = held.saturating_add(1),
            Err(DimacsErr::Memory) => return Err(Memory),
            _ => {}
        }
    }
    Ok(held)
}

/// Two texts of one formula: as it is written, and with white space and comments as drawn.
#[derive(Drop)]
struct Drawn {
    state: u32,
    vars: u32,
    plain: Vec<u8>,
    mixed: Vec<u8>,
}

impl Drawn {
    fn new(alloc: Global, seed: u32, vars: u32) -> Drawn {
        Drawn {
            state: seed,
            vars,
            plain: Vec::new(alloc),
            mixed: Vec::new(alloc),
        }
    }

    /// A number below this one, from a linear congruential generator.
    fn below(&mut self, limit: u32) -> u32 {
        self.state = self.state.wrapping_mul(1664525).wrapping_add(1013904223);
        (self.state >> 8).checked_rem(limit).unwrap_or(0)
    }

    fn put_formula(&mut self, clauses: u32) -> Result<(), Memory> {
        self.put_header(clauses)?;
        for _ in 0..clauses {
            self.put_clause()?;
        }
        Ok(())
    }

    fn put_header(&mut self, clauses: u32) -> Result<(), Memory> {
        put(&mut self.plain, b"p cnf ")?;
        put_number(&mut self.plain, u64::from(self.vars))?;
        put(&mut self.plain, b" ")?;
        put_number(&mut self.plain, u64::from(clauses))?;
        put(&mut self.plain, b"\n")?;
        put(&mut self.mixed, b"c p cnf 1 1\n \t\n\tp  cnf\t0")?;
        put_number(&mut self.mixed, u64::from(self.vars))?;
        put(&mut self.mixed, b" 00")?;
        put_number(&mut self.mixed, u64::from(clauses))?;
        put(&mut self.mixed, b" \n")
    }

    /// Up to four literals, and the 0.
    fn put_clause(&mut self) -> Result<(), Memory> {
        for _ in 0..self.below(5) {
            let variable = self.below(self.vars).saturating_add(1);
            let negative = self.below(2) == 1;
            self.put_literal(variable, negative)?;
        }
        put(&mut self.plain, b"0\n")?;
        put(&mut self.mixed, b"0")?;
        self.put_space()
    }

    fn put_literal(&mut self, variable: u32, negative: bool) -> Result<(), Memory> {
        if negative {
            put(&mut self.plain, b"-")?;
            put(&mut self.mixed, b"-0")?;
        }
        put_number(&mut self.plain, u64::from(variable))?;
        put(&mut self.plain, b" ")?;
        put_number(&mut self.mixed, u64::from(variable))?;
        self.put_space()
    }

    fn put_space(&mut self) -> Result<(), Memory> {
        match self.below(7) {
            0 => put(&mut self.mixed, b"\n"),
            1 => put(&mut self.mixed, b" \r\n\n"),
            2 => put(&mut self.mixed, b"\t"),
            3 => put(&mut self.mixed, b"\ncomment 1 0\n"),
            4 => put(&mut self.mixed, b"\r\x0c  "),
            _ => put(&mut self.mixed, b" "),
        }
    }
}
