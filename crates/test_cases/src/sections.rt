//! Cases of several parts, each behind a title.

ghost use Rattle.std.specs.Prelude.{◌≤◌};
ghost use Rattle.test_cases.specs.Left.{lines_left};

use crate::content::{put_line, put_newlines};
use crate::line::{Line, Lines};
use std::alloc::{AllocError, Global};

/// A case behind its title.
#[derive(Clone, Copy)]
pub struct Section<'a> {
    pub title: Line<'a>,
    lines: Lines<'a>,
}

/// The cases of a file of sections.
#[derive(Clone, Copy)]
pub struct Sections<'a> {
    lines: Lines<'a>,
}

/// What a part is.
#[derive(Clone, Copy, Debug, PartialEq, Eq)]
pub enum PartKind {
    /// A line of words.
    Words,
    /// `< NAME`, and the content of a file.
    File,
    /// `> KIND`, and the content that must come.
    Want,
}

/// A part of a case: its line's number, what stands on it behind the mark, and the lines beneath.
#[derive(Clone, Copy)]
pub struct Part<'a> {
    pub kind: PartKind,
    pub line: usize,
    pub head: &'a [u8],
    lines: Lines<'a>,
}

/// The parts of a case.
#[derive(Clone, Copy)]
pub struct Parts<'a> {
    lines: Lines<'a>,
}

/// The cases of a file of sections: each begins with a line `= TITLE`.
pub fn section_cases(text: &[u8]) -> Sections<'_> {
    Sections {
        lines: Lines::new(text),
    }
}

/// What stands before the first title, as a case without one.
pub fn shared(text: &[u8]) -> Section<'_> {
    let title = Line {
        number: 0,
        text: b"",
    };
    Section {
        title,
        lines: Lines::new(text),
    }
}

impl<'a> Iterator for Sections<'a> {
    type Item = Section<'a>;

    ghost use Rattle.std.specs.Iterator.{at_most};
    ghost use Rattle.test_cases.specs.Left.{lines_left};

    ghost remaining = { λ sections. at_most (lines_left sections.lines) };

    fn next(&mut self) -> Option<Section<'a>> {
        let title = self.lines.find(is_title)?;
        Some(Section {
            title,
            lines: self.lines,
        })
    }
}

fn is_title(line: &Line<'_>) -> bool {
    line.behind(b"= ").is_some()
}

/// The line ends the content in front of it.
fn ends_content(line: &Line<'_>) -> bool {
    is_title(line) || line.behind(b"< ").is_some() || line.behind(b"> ").is_some()
}

impl<'a> Section<'a> {
    /// Its parts in order.
    pub fn parts(&self) -> Parts<'a> {
        Parts { lines: self.lines }
    }
}

impl<'a> Iterator for Parts<'a> {
    type Item = Part<'a>;

    ghost use Rattle.std.specs.Iterator.{at_most};
    ghost use Rattle.test_cases.specs.Left.{lines_left};

    ghost remaining = { λ parts. at_most (lines_left parts.lines) };

    fn next(&mut self) -> Option<Part<'a>> {
        let line = self.lines.find(counts)?;
        if is_title(&line) {
            self.lines = Lines::new(b"");
            return None;
        }
        let lines = self.lines;
        let part = part_of(line, lines);
        if part.kind != PartKind::Words {
            self.lines = behind_content(lines);
        }
        Some(part)
    }
}

fn counts(line: &Line<'_>) -> bool {
    !line.is_idle()
}

/// The part that begins with this line.
fn part_of<'a>(line: Line<'a>, lines: Lines<'a>) -> Part<'a> {
    let (kind, head) = if let Some(name) = line.behind(b"< ") {
        (PartKind::File, name)
    } else if let Some(kind) = line.behind(b"> ") {
        (PartKind::Want, kind)
    } else {
        (PartKind::Words, line.text)
    };
    Part {
        kind,
        line: line.number,
        head,
        lines,
    }
}

/// The lines behind those of a content.
fn behind_content(lines: Lines<'_>) -> Lines<'_>
    ensures { lines_left result ≤ lines_left lines.entry }
{
    let mut kept = lines;
    let mut behind = lines;
    'lines: while let Some(line) = behind.next() {
        if ends_content(&line) {
            break;
        }
        kept = behind;
    }
    kept
}

impl<'a> Part<'a> {
    /// The lines beneath, each with a newline behind it. Empty lines at the end don't count.
    pub fn content(&self, alloc: Global) -> Result<Vec<u8>, AllocError> {
        let mut content = Vec::new(alloc);
        let mut empty = 0u64;
        for line in self.lines {
            if ends_content(&line) {
                break;
            }
            if line.text.is_empty() {
                empty = empty.saturating_add(1);
                continue;
            }
            put_newlines(&mut content, empty)?;
            empty = 0;
            put_line(&mut content, line)?;
            content.push(b'\n')?;
        }
        Ok(content)
    }
}
