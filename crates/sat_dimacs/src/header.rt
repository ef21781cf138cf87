//! The header of a formula's text.

ghost use Rattle.std.specs.Prelude.{◌≡◌, ◌≤◌, [], IfOk, IfSome};
ghost use Rattle.base_scan.specs.Fronts.{word_in_front};
ghost use Rattle.sat_dimacs.specs.Machine as spec;
ghost use Rattle.sat_dimacs.specs.Reading.{ReadsFront, Skips, Takes};

use crate::fault::DimacsFault;
use crate::kind::is_idle;
use crate::lines::Lines;
use crate::words::Words;
use base_scan::{Gap, is_word, number_within};

/// The numbers of variables and of clauses.
#[derive(Clone, Copy, Debug, PartialEq, Eq)]
pub struct Header {
    pub vars: u32,
    pub count: u64,
}

/// The header: the first line that is neither passed over nor blank.
pub fn read_header(lines: &mut Lines<'_>) -> Result<Header, DimacsFault>
    ensures reads { ReadsFront (spec.header_in lines.old.number lines.old.lines) result lines.new }
    ensures few { IfOk result (λ header. header.vars ≤ 2147483647) }
{
    'lines: loop {
        let number = lines.number();
        match lines.next() {
            None => return Err(DimacsFault::Syntax { line: number }),
            Some(line) if is_idle(line) => {}
            Some(line) => return header_on(number, line),
        }
    }
}

fn header_on(number: usize, line: &[u8]) -> Result<Header, DimacsFault>
    ensures is { result ≡ spec.header_on number line.now }
    ensures few { IfOk result (λ header. header.vars ≤ 2147483647) }
{
    let mut words = Words::new(line, Gap::Blank);
    match header_of(&mut words) {
        Some(header) => Ok(header),
        None => Err(DimacsFault::Syntax { line: number }),
    }
}

// header = "p" "cnf" digits digits
#[tactic(auto, unfolding(crate::specs::Machine::header_of))]
fn header_of(words: &mut Words<'_>) -> Option<Header>
    ensures is { result ≡ spec.header_of words.old }
    ensures few { IfSome result (λ header. header.vars ≤ 2147483647) }
{
    expect(words, b"p")?;
    expect(words, b"cnf")?;
    let vars = count(2_147_483_647, words)?;
    let count = count(9_223_372_036_854_775_807, words)?;
    whole(
        Header {
            vars: vars as u32,
            count,
        },
        words,
    )
}

/// Passes over this word.
fn expect(words: &mut Words<'_>, word: &[u8]) -> Option<()>
    ensures { Skips (word_in_front word.now words.old) result words.new }
{
    let found = words.next()?;
    if is_word(found, word) { Some(()) } else { None }
}

#[tactic(auto, unfolding(crate::specs::Machine::count_in_front))]
fn count(limit: u64, words: &mut Words<'_>) -> Option<u64>
    ensures takes { Takes (spec.count_in_front limit words.old) result words.new }
    ensures small { IfSome result (λ n. n ≤ limit) }
{
    let word = words.next()?;
    number_within(limit, word)
}

/// The header, where no word is left.
fn whole(header: Header, words: &mut Words<'_>) -> Option<Header>
    ensures { result ≡ spec.whole header words.old }
{
    match words.next() {
        None => Some(header),
        Some(_) => None,
    }
}
