//! A case: the texts of a job, and what must come.

use crate::chain::put_chain;
use crate::drawn::put_drawn;
use crate::job::compare_part;
use crate::recording::put_vcd;
use crate::words::{first_word, number_of, text_of};
use base_lists::Memory;
use design_circuit::{Levels, RegisterRules, StartRule};
use std::alloc::{AllocError, Global};
use test_cases::{Part, PartKind, Parts, Report, Section};

/// The texts of a job, the lines of its forces, how many rounds a moment has, how many clauses a log, and by which
/// rules registers go.
#[derive(Drop)]
pub struct Texts {
    pub netlist: Vec<u8>,
    pub recording: Vec<u8>,
    pub forced: Vec<u8>,
    pub rounds: u32,
    pub conflicts: u32,
    pub rules: RegisterRules,
}

impl Texts {
    fn new(alloc: Global) -> Texts {
        Texts {
            netlist: Vec::new(alloc),
            recording: Vec::new(alloc),
            forced: Vec::new(alloc),
            rounds: 4,
            conflicts: 1000,
            rules: RegisterRules {
                start: StartRule::Cold,
                levels: Levels::Change,
            },
        }
    }

    fn take_sections(
        &mut self,
        alloc: Global,
        common: Section<'_>,
        section: Section<'_>,
    ) -> Result<(), AllocError> {
        self.take_all(alloc, common.parts())?;
        self.take_all(alloc, section.parts())
    }

    fn take_all(&mut self, alloc: Global, parts: Parts<'_>) -> Result<(), AllocError> {
        for part in parts {
            self.take(alloc, part)?;
        }
        Ok(())
    }

    fn take(&mut self, alloc: Global, part: Part<'_>) -> Result<(), AllocError> {
        match part.kind {
            PartKind::Want => Ok(()),
            PartKind::Words => self.take_words(alloc, text_of(part.head)),
            PartKind::File => self.take_file(alloc, part),
        }
    }

    fn take_words(&mut self, alloc: Global, words: &str) -> Result<(), AllocError> {
        let (word, rest) = first_word(words);
        match setting_of(word) {
            Setting::Chain => put_chain(alloc, &mut self.netlist, rest),
            Setting::Drawn => self.take_drawn(alloc, rest),
            Setting::Force => self.take_force(words),
            setting => {
                self.set(setting, number_of(rest));
                Ok(())
            }
        }
    }

    fn set(&mut self, setting: Setting, number: u64) {
        match setting {
            Setting::Rounds => self.rounds = number.clamp(1, 16) as u32,
            Setting::Conflicts => self.conflicts = number.clamp(1, 100_000) as u32,
            Setting::Start => self.rules.start = StartRule::Recorded,
            _ => self.rules.levels = Levels::Hold,
        }
    }

    fn take_force(&mut self, words: &str) -> Result<(), AllocError> {
        self.forced.extend_from_slice(words.as_bytes())?;
        self.forced.extend_from_slice(b"\n")
    }

    fn take_drawn(&mut self, alloc: Global, words: &str) -> Result<(), AllocError> {
        let (seed, gates) = first_word(words);
        let (seed, gates) = (number_of(seed), number_of(gates));
        put_drawn(alloc, &mut self.netlist, &mut self.recording, seed, gates)
    }

    fn take_file(&mut self, alloc: Global, part: Part<'_>) -> Result<(), AllocError> {
        match text_of(part.head) {
            "netlist" => self.take_netlist(alloc, part),
            "recording" => self.take_short(alloc, part),
            _ => self.take_recording(alloc, part),
        }
    }

    fn take_recording(&mut self, alloc: Global, part: Part<'_>) -> Result<(), AllocError> {
        self.recording = part.content(alloc)?;
        Ok(())
    }

    fn take_netlist(&mut self, alloc: Global, part: Part<'_>) -> Result<(), AllocError> {
        let content = part.content(alloc)?;
        self.netlist.extend_from_slice(content.as_slice())
    }

    fn take_short(&mut self, alloc: Global, part: Part<'_>) -> Result<(), AllocError> {
        let content = part.content(alloc)?;
        put_vcd(alloc, &mut self.recording, text_of(content.as_slice()))
    }
}

/// What a line of words sets.
#[derive(Clone, Copy)]
enum Setting {
    Rounds,
    Conflicts,
    Start,
    Levels,
    Chain,
    Drawn,
    Force,
}

fn setting_of(word: &str) -> Setting {
    match word {
        "rounds" => Setting::Rounds,
        "conflicts" => Setting::Conflicts,
        "start" => Setting::Start,
        "levels" => Setting::Levels,
        "chain" => Setting::Chain,
        "made" => Setting::Drawn,
        _ => Setting::Force,
    }
}

/// Repairs or replays the job of a case, and compares what is found of it.
pub fn run_case(
    alloc: Global,
    report: &mut Report,
    common: Section<'_>,
    section: Section<'_>,
) -> Result<(), Memory> {
    let texts = texts_of(alloc, common, section)?;
    compare_parts(alloc, report, &texts, section)?;
    report.end_case();
    Ok(())
}

fn texts_of(alloc: Global, common: Section<'_>, section: Section<'_>) -> Result<Texts, AllocError> {
    let mut texts = Texts::new(alloc);
    texts.take_sections(alloc, common, section)?;
    Ok(texts)
}

fn compare_parts(
    alloc: Global,
    report: &mut Report,
    texts: &Texts,
    section: Section<'_>,
) -> Result<(), Memory> {
    for part in section.parts() {
        if part.kind == PartKind::Want {
            compare_part(alloc, report, texts, part)?;
        }
    }
    Ok(())
}
