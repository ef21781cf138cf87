//! What stands in a case: its words, what sets it up, and what must come.

use crate::words::is_one_of;
use std::alloc::{AllocError, Global};
use std::str;
use test_cases::{Part, PartKind, Parts, Report, Section};

/// The files that runs write, those of each command in the order in which they are written.
pub const OUTPUTS: [&str; 15] = [
    "o.vcd", "o.v", "o.xc", "p.vcd", "m.v", "r.vcd", "p.xc", "p-1.cnf", "p-1.log", "p-2.cnf",
    "p-2.log", "p-3.cnf", "p-3.log", "p-7.cnf", "p-7.log",
];

/// With what a line begins that sets a run up, and is none of its words.
const MARKS: [&str; 5] = ["put ", "grow ", "fail ", "pieces ", "cut "];

/// A case behind its title, and what holds for all cases of its file.
#[derive(Clone, Copy)]
pub struct Case<'a> {
    pub alloc: Global,
    common: Section<'a>,
    own: Section<'a>,
}

/// The text of a line; one that is none is empty.
pub fn text_of(line: &[u8]) -> &str {
    str::from_utf8(line).unwrap_or("")
}

impl<'a> Case<'a> {
    pub fn new(alloc: Global, common: Section<'a>, own: Section<'a>) -> Case<'a> {
        Case { alloc, common, own }
    }

    /// The number of its title's line.
    pub fn title(&self) -> usize {
        self.own.title.number
    }

    /// What holds for all cases of its file.
    pub fn common(&self) -> Parts<'a> {
        self.common.parts()
    }

    /// What stands behind its title.
    pub fn own(&self) -> Parts<'a> {
        self.own.parts()
    }

    /// The line of its words.
    pub fn words(&self) -> &'a str {
        words_in(self.own()).unwrap_or(words_in(self.common()).unwrap_or(""))
    }

    /// What stands behind this mark on a line that sets it up.
    pub fn line(&self, mark: &str) -> Option<&'a str> {
        line_in(self.own(), mark).or(line_in(self.common(), mark))
    }

    /// What must come under this head, as `printed`.
    pub fn want(&self, head: &str) -> Option<Part<'a>> {
        self.want_of("", head)
    }

    /// The line `> status 5`.
    pub fn want_status(&self) -> Option<Part<'a>> {
        status_in(self.own()).or(status_in(self.common()))
    }

    /// What must come of a file under this mark, as `> heads o.xc`.
    pub fn want_of(&self, mark: &str, name: &str) -> Option<Part<'a>> {
        marked_in(self.own(), mark, name).or(marked_in(self.common(), mark, name))
    }

    /// Reports what no case has: a part of no known kind, and a second line of words.
    pub fn check(&self, report: &mut Report) -> Result<(), AllocError> {
        check_parts(report, self.common())?;
        check_parts(report, self.own())
    }
}

/// The line sets a run up.
fn sets_up(line: &str) -> bool {
    for mark in MARKS {
        if line.starts_with(mark) {
            return true;
        }
    }
    false
}

fn is_words(part: &Part<'_>) -> bool {
    part.kind == PartKind::Words && !sets_up(text_of(part.head))
}

fn words_in(parts: Parts<'_>) -> Option<&str> {
    for part in parts {
        if is_words(&part) {
            return Some(text_of(part.head));
        }
    }
    None
}

fn line_in<'a>(parts: Parts<'a>, mark: &str) -> Option<&'a str> {
    for part in parts {
        let behind = text_of(part.head).strip_prefix(mark);
        if part.kind == PartKind::Words && behind.is_some() {
            return behind;
        }
    }
    None
}

fn status_in(parts: Parts<'_>) -> Option<Part<'_>> {
    for part in parts {
        if part.kind == PartKind::Want && is_status(text_of(part.head)) {
            return Some(part);
        }
    }
    None
}

fn is_status(head: &str) -> bool {
    head.starts_with("status ")
}

fn marked_in<'a>(parts: Parts<'a>, mark: &str, name: &str) -> Option<Part<'a>> {
    for part in parts {
        let behind = text_of(part.head).strip_prefix(mark);
        if part.kind == PartKind::Want && behind == Some(name) {
            return Some(part);
        }
    }
    None
}

fn check_parts(report: &mut Report, parts: Parts<'_>) -> Result<(), AllocError> {
    let mut has_words = false;
    for part in parts {
        let is_words = is_words(&part);
        check_part(report, part, has_words && is_words)?;
        has_words = has_words || is_words;
    }
    Ok(())
}

/// Reports a second line of words, and a part at which no run looks.
fn check_part(report: &mut Report, part: Part<'_>, again: bool) -> Result<(), AllocError> {
    if !again && is_known(&part) {
        return Ok(());
    }
    report.compare(part.line, b"a part of a case", part.head)
}

/// The part is one that runs look at.
fn is_known(part: &Part<'_>) -> bool {
    let head = text_of(part.head);
    match part.kind {
        PartKind::Want => is_status(head) || is_text(head) || is_output(head),
        _ => true,
    }
}

fn is_text(head: &str) -> bool {
    is_one_of(&["printed", "bits", "calls"], head)
}

fn is_output(head: &str) -> bool {
    let name = head
        .strip_prefix("heads ")
        .or(head.strip_prefix("none "))
        .unwrap_or(head);
    is_one_of(&OUTPUTS, name)
}
