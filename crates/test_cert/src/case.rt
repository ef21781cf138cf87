//! A case: the texts of a job, and what must come.

use crate::checked::put_read;
use crate::job::{Task, put_job};
use crate::words::{text_of, word_and_number};
use base_lists::Memory;
use cert_check::Form;
use std::alloc::{AllocError, Global};
use test_cases::{Part, PartKind, Parts, Report, Section};

/// The texts of a job and of a certificate, if there is one; how many rounds a moment has, and how many clauses the log
/// of a search; and whether a certificate is without its last byte.
#[derive(Drop)]
pub struct Texts {
    pub netlist: Vec<u8>,
    pub recording: Vec<u8>,
    pub cert: Option<Vec<u8>>,
    pub rounds: u32,
    pub conflicts: u32,
    cut: bool,
}

impl Texts {
    fn new(alloc: Global) -> Texts {
        Texts {
            netlist: Vec::new(alloc),
            recording: Vec::new(alloc),
            cert: None,
            rounds: 4,
            conflicts: 1000,
            cut: false,
        }
    }

    fn take_sections(
        &mut self,
        alloc: Global,
        common: Section<'_>,
        section: Section<'_>,
    ) -> Result<(), AllocError> {
        self.take_all(alloc, common.parts())?;
        self.take_all(alloc, section.parts())
    }

    fn take_all(&mut self, alloc: Global, parts: Parts<'_>) -> Result<(), AllocError> {
        for part in parts {
            self.take(alloc, part)?;
        }
        Ok(())
    }

    fn take(&mut self, alloc: Global, part: Part<'_>) -> Result<(), AllocError> {
        match part.kind {
            PartKind::Want => Ok(()),
            PartKind::Words => {
                self.take_words(text_of(part.head));
                Ok(())
            }
            PartKind::File => self.take_file(alloc, part),
        }
    }

    fn take_words(&mut self, words: &str) {
        let (word, number) = word_and_number(words);
        match word {
            "rounds" => self.rounds = number.clamp(1, 16) as u32,
            "conflicts" => self.conflicts = number.clamp(1, 100_000) as u32,
            _ => self.cut = true,
        }
    }

    fn take_file(&mut self, alloc: Global, part: Part<'_>) -> Result<(), AllocError> {
        match text_of(part.head) {
            "netlist" => self.take_netlist(alloc, part),
            "cert" => self.take_cert(alloc, part),
            _ => self.take_recording(alloc, part),
        }
    }

    fn take_netlist(&mut self, alloc: Global, part: Part<'_>) -> Result<(), AllocError> {
        let content = self.content_of(alloc, part)?;
        self.netlist.extend_from_slice(content.as_slice())
    }

    fn take_cert(&mut self, alloc: Global, part: Part<'_>) -> Result<(), AllocError> {
        self.cert = Some(self.content_of(alloc, part)?);
        Ok(())
    }

    fn take_recording(&mut self, alloc: Global, part: Part<'_>) -> Result<(), AllocError> {
        self.recording = self.content_of(alloc, part)?;
        Ok(())
    }

    fn content_of(&self, alloc: Global, part: Part<'_>) -> Result<Vec<u8>, AllocError> {
        let mut content = part.content(alloc)?;
        if self.cut {
            let _ = content.pop();
        }
        Ok(content)
    }
}

/// Does what the parts of a case ask for, and compares it.
pub fn run_case(
    alloc: Global,
    report: &mut Report,
    common: Section<'_>,
    section: Section<'_>,
) -> Result<(), Memory> {
    let texts = texts_of(alloc, common, section)?;
    compare_parts(alloc, report, &texts, section)
}

fn texts_of(alloc: Global, common: Section<'_>, section: Section<'_>) -> Result<Texts, AllocError> {
    let mut texts = Texts::new(alloc);
    texts.take_sections(alloc, common, section)?;
    Ok(texts)
}

fn compare_parts(
    alloc: Global,
    report: &mut Report,
    texts: &Texts,
    section: Section<'_>,
) -> Result<(), Memory> {
    for part in section.parts() {
        if part.kind == PartKind::Want {
            compare_part(alloc, report, texts, part)?;
        }
    }
    report.end_case();
    Ok(())
}

fn compare_part(
    alloc: Global,
    report: &mut Report,
    texts: &Texts,
    part: Part<'_>,
) -> Result<(), Memory> {
    let mut out = Vec::new(alloc);
    put_part(alloc, &mut out, texts, part)?;
    Ok(compare_content(alloc, report, part, out.as_slice())?)
}

fn put_part(alloc: Global, out: &mut Vec<u8>, texts: &Texts, part: Part<'_>) -> Result<(), Memory> {
    match text_of(part.head) {
        "read" => put_read(alloc, out, texts),
        "own" => put_job(alloc, out, texts, Task::Own(Form::Lines)),
        "own 2" => put_job(alloc, out, texts, Task::Own(Form::Turns)),
        _ => put_job(alloc, out, texts, Task::Check),
    }
}

fn compare_content(
    alloc: Global,
    report: &mut Report,
    part: Part<'_>,
    got: &[u8],
) -> Result<(), AllocError> {
    let want = part.content(alloc)?;
    report.compare(part.line.saturating_add(1), want.as_slice(), got)
}
