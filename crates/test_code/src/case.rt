//! A case: a netlist with moments, code, and what must come.

use crate::job::compare_job;
use crate::words::{first_word, text_of};
use base_lists::Memory;
use std::alloc::{AllocError, Global};
use test_cases::{Part, PartKind, Report, Section};

/// A code text, or events that one is written for.
#[derive(Drop)]
pub enum Given {
    Code(Vec<u8>),
    Events(Vec<u8>),
}

/// The netlist of a case, the times of the moments, how many rounds each has, the scope in front of names, and the
/// code.
#[derive(Drop)]
pub struct Texts<'a> {
    pub netlist: Vec<u8>,
    pub times: &'a str,
    pub rounds: u32,
    pub scope: &'a str,
    pub given: Given,
}

impl<'a> Texts<'a> {
    fn new(alloc: Global) -> Texts<'a> {
        Texts {
            netlist: Vec::new(alloc),
            times: "0",
            rounds: 4,
            scope: "tb.dut",
            given: Given::Code(Vec::new(alloc)),
        }
    }

    fn take_words(&mut self, words: &'a str) {
        match first_word(words) {
            ("times", rest) => self.times = rest,
            ("rounds", rest) => self.rounds = rest.parse::<u32>().unwrap_or(0),
            (_, rest) => self.scope = rest,
        }
    }

    fn take_file(&mut self, alloc: Global, part: Part<'a>) -> Result<(), AllocError> {
        let content = part.content(alloc)?;
        match text_of(part.head) {
            "netlist" => self.netlist = content,
            "code" => self.given = Given::Code(content),
            _ => self.given = Given::Events(content),
        }
        Ok(())
    }
}

/// Goes over the parts of a case: each that says what must come is compared with what came before it.
pub fn run_case<'a>(
    alloc: Global,
    report: &mut Report,
    common: Section<'a>,
    section: Section<'a>,
) -> Result<(), Memory> {
    let mut texts = Texts::new(alloc);
    for part in common.parts().chain(section.parts()) {
        match part.kind {
            PartKind::Words => texts.take_words(text_of(part.head)),
            PartKind::File => texts.take_file(alloc, part)?,
            PartKind::Want => compare_job(alloc, report, &texts, part)?,
        }
    }
    Ok(())
}

/// Compares what came with what must come, which begins on this line, as a case of its own.
pub fn compare(report: &mut Report, line: usize, want: &[u8], got: &[u8]) -> Result<(), Memory> {
    report.compare(line, want, got)?;
    report.end_case();
    Ok(())
}
