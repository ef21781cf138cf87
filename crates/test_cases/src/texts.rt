//! Texts with what must come beneath.

ghost use Rattle.std.specs.Prelude.{◌≤◌};
ghost use Rattle.test_cases.specs.Left.{lines_left};

use crate::content::put_line;
use crate::line::{Line, Lines};
use std::alloc::{AllocError, Global};

/// A text and the line beneath it that says what must come.
#[derive(Clone, Copy)]
pub struct TextCase<'a> {
    lines: Lines<'a>,
    want: Option<Line<'a>>,
}

/// A text, what must come in words, and the number of the line that says so.
#[derive(Drop)]
pub struct Text {
    pub input: Vec<u8>,
    pub want: Vec<u8>,
    pub line: usize,
}

/// The cases of a file of texts.
#[derive(Clone, Copy)]
pub struct TextCases<'a> {
    lines: Lines<'a>,
}

/// The cases of a file of texts.
///
/// Lines that begin with `# ` don't count, and empty ones don't before the first line of a text.
pub fn text_cases(text: &[u8]) -> TextCases<'_> {
    TextCases {
        lines: Lines::new(text),
    }
}

impl<'a> Iterator for TextCases<'a> {
    type Item = TextCase<'a>;

    ghost use Rattle.std.specs.Iterator.{at_most};
    ghost use Rattle.test_cases.specs.Left.{lines_left};

    ghost remaining = { λ cases. at_most (lines_left cases.lines) };

    fn next(&mut self) -> Option<TextCase<'a>> {
        let lines = behind_idle(self.lines);
        let mut rest = lines;
        rest.next()?;
        rest = lines;
        let Some(want) = rest.find(is_want) else {
            self.lines = Lines::new(b"");
            return Some(TextCase { lines, want: None });
        };
        self.lines = rest;
        Some(TextCase {
            lines,
            want: Some(want),
        })
    }
}

/// The lines from the first that counts.
fn behind_idle(lines: Lines<'_>) -> Lines<'_>
    ensures { lines_left result ≤ lines_left lines.entry }
{
    let mut kept = lines;
    let mut behind = lines;
    'lines: while let Some(line) = behind.next() {
        if !line.is_idle() {
            break;
        }
        kept = behind;
    }
    kept
}

/// What stands in front of the caret of a line of spaces, a caret and more, and what stands behind.
fn around_caret(text: &[u8]) -> Option<(usize, &[u8])> {
    let column = text.iter().position(|byte| *byte != b' ')?;
    let rest = text[column..].strip_prefix(b"^")?;
    Some((column, rest))
}

/// The line says what must come.
fn is_want(line: &Line<'_>) -> bool {
    line.text == b"ok".as_slice()
        || line.behind(b"> ").is_some()
        || around_caret(line.text).is_some()
}

impl<'a> TextCase<'a> {
    /// The text and what must come, as `12 unexpected` for a caret under byte 12, counted from 0.
    ///
    /// Where the file ends in a text, what must come is `a line that says what must come`.
    pub fn read(&self, alloc: Global) -> Result<Text, AllocError> {
        let mut input = Vec::new(alloc);
        let mut begin = 0;
        let mut first = true;
        for line in self.lines {
            if is_want(&line) {
                break;
            }
            if line.behind(b"# ").is_some() {
                continue;
            }
            if !first {
                input.push(b'\n')?;
            }
            first = false;
            begin = input.len();
            put_line(&mut input, line)?;
        }
        let (line, want) = want_at(alloc, self.want, begin)?;
        Ok(Text { input, want, line })
    }
}

/// What must come, where the text's last line begins at this byte.
fn want_at(
    alloc: Global,
    want: Option<Line<'_>>,
    begin: usize,
) -> Result<(usize, Vec<u8>), AllocError> {
    let Some(line) = want else {
        return Ok((
            0,
            Vec::from_slice(alloc, b"a line that says what must come")?,
        ));
    };
    let words = match around_caret(line.text) {
        Some((column, word)) => refusal_at(alloc, begin.saturating_add(column), word)?,
        None => Vec::from_slice(alloc, line.behind(b"> ").unwrap_or(line.text))?,
    };
    Ok((line.number, words))
}

/// The byte's number and a word behind a space; a word that begins otherwise has its number.
fn refusal_at(alloc: Global, at: usize, word: &[u8]) -> Result<Vec<u8>, AllocError> {
    if !word.starts_with(b" ") {
        return Vec::from_slice(alloc, word);
    }
    let number = format!(in alloc; "{at}")?;
    let mut words = Vec::from_slice(alloc, number.as_str().as_bytes())?;
    words.extend_from_slice(word)?;
    Ok(words)
}
