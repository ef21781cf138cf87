//! A line of a certificate, by its words.

ghost use Rattle.std.specs.Prelude.{◌≡◌, ◌≢◌, [], IfErr, OnOk};
ghost use Rattle.cert_reader.specs.Machine.{enumerated_of_words, field_in_front, head_of_words, lettered};
ghost use Rattle.cert_reader.specs.Machine.{pair_of_words, refuted_of_words, undecided_of_words};
ghost use Rattle.cert_reader.specs.Reading.{Gives, Takes};

use crate::logs::log;
use crate::pieces::Words;
use crate::refusal::LineErr;
use crate::words::{bit, expect, filling_before, filling_to_end, number, place};
use base_scan::is_word;
use cert_writer::Head;
use law_model::{Body, Line};
use std::alloc::Global;

/// What the words after a letter stand for.
// line = "e" .. | "r" .. | "u" .. | "?" ..
pub fn line_of_letter(alloc: Global, letter: &[u8], words: &mut Words<'_>) -> Result<Line, LineErr>
    ensures { Gives result (lettered letter.now words.old) }
{
    if is_word(letter, b"e") {
        return enumerated(words);
    }
    if is_word(letter, b"r") {
        return refuted(alloc, words);
    }
    if is_word(letter, b"u") {
        return pair(alloc, words);
    }
    if is_word(letter, b"?") {
        return undecided(alloc, words);
    }
    Err(LineErr::Wrong)
}

// "e" place bit
#[tactic(auto, unfolding(crate::specs::Machine::enumerated_of_words))]
fn enumerated(words: &mut Words<'_>) -> Result<Line, LineErr>
    ensures { Gives result (enumerated_of_words words.old) }
{
    let place = place(words)?;
    let bit = bit(words)?;
    end(words)?;
    Ok(Line {
        place,
        body: Body::Enumerated(bit),
    })
}

// "r" place bit ":" log
#[tactic(auto, unfolding(crate::specs::Machine::refuted_of_words))]
fn refuted(alloc: Global, words: &mut Words<'_>) -> Result<Line, LineErr>
    ensures { Gives result (refuted_of_words words.old) }
{
    let place = place(words)?;
    let bit = bit(words)?;
    expect(words, b":")?;
    let log = log(alloc, words)?;
    Ok(Line {
        place,
        body: Body::Refuted(bit, log),
    })
}

// "u" place ":" filling ";" filling
#[tactic(auto, unfolding(crate::specs::Machine::pair_of_words))]
fn pair(alloc: Global, words: &mut Words<'_>) -> Result<Line, LineErr>
    ensures { Gives result (pair_of_words words.old) }
{
    let place = place(words)?;
    expect(words, b":")?;
    let zero = filling_before(alloc, words)?;
    let one = filling_to_end(alloc, words)?;
    Ok(Line {
        place,
        body: Body::Pair(zero, one),
    })
}

// "?" place ":" log
#[tactic(auto, unfolding(crate::specs::Machine::undecided_of_words))]
fn undecided(alloc: Global, words: &mut Words<'_>) -> Result<Line, LineErr>
    ensures { Gives result (undecided_of_words words.old) }
{
    let place = place(words)?;
    expect(words, b":")?;
    let log = log(alloc, words)?;
    Ok(Line {
        place,
        body: Body::Undecided(log),
    })
}

/// There are no more words.
pub fn end(words: &mut Words<'_>) -> Result<(), LineErr>
    ensures ok { OnOk result (words.old ≡ []) }
    ensures err { IfErr result (λ e. (words.old ≢ []) × (e ≡ LineErr.Wrong)) }
{
    match words.next() {
        None => Ok(()),
        Some(_) => Err(LineErr::Wrong),
    }
}

// head = "rounds" number "conflicts" number "moments" number "nets" number
#[tactic(auto, unfolding(crate::specs::Machine::head_of_words))]
pub fn head(words: &mut Words<'_>) -> Result<Head, LineErr>
    ensures { Gives result (head_of_words words.old) }
{
    let rounds = field(words, b"rounds")?;
    let conflicts = field(words, b"conflicts")?;
    let moments = field(words, b"moments")?;
    let nets = field(words, b"nets")?;
    end(words)?;
    Ok(Head {
        rounds,
        conflicts,
        moments,
        nets,
    })
}

#[tactic(auto, unfolding(crate::specs::Machine::field_in_front))]
fn field(words: &mut Words<'_>, word: &[u8]) -> Result<u32, LineErr>
    ensures { Takes result (field_in_front word.now words.old) words.new }
{
    expect(words, word)?;
    number(words)
}
