//! A turn of a certificate, by its words.

ghost use Rattle.std.specs.Prelude.{◌≡◌};
ghost use Rattle.cert_reader.specs.Machine.{is_turn_letter, turn_lettered, turn_of_words};
ghost use Rattle.cert_reader.specs.Reading.{Gives};

use crate::logs::log;
use crate::models::model;
use crate::pieces::Words;
use crate::refusal::LineErr;
use crate::words::{expect, place};
use base_scan::is_word;
use law_model::{Turn, TurnLine};
use std::alloc::Global;

pub fn is_turn_letter(letter: &[u8]) -> bool
    ensures { result ≡ is_turn_letter letter.now }
{
    is_word(letter, b"-") || is_word(letter, b"+") || is_word(letter, b"~")
}

/// What the words after a turn's letter stand for.
// turn = letter place ":" finding
#[tactic(auto, unfolding(crate::specs::Machine::turn_of_words))]
pub fn turn_of_letter(
    alloc: Global,
    letter: &[u8],
    words: &mut Words<'_>,
) -> Result<TurnLine, LineErr>
    ensures { Gives result (turn_of_words letter.now words.old) }
{
    let place = place(words)?;
    expect(words, b":")?;
    let turn = finding(alloc, letter, words)?;
    Ok(TurnLine { place, turn })
}

// finding = log | model
fn finding(alloc: Global, letter: &[u8], words: &mut Words<'_>) -> Result<Turn, LineErr>
    ensures { Gives result (turn_lettered letter.now words.old) }
{
    if is_word(letter, b"-") {
        return Ok(Turn::Dropped(log(alloc, words)?));
    }
    if is_word(letter, b"+") {
        return Ok(Turn::Needed(model(alloc, words)?));
    }
    if is_word(letter, b"~") {
        return Ok(Turn::Tried(log(alloc, words)?));
    }
    Err(LineErr::Wrong)
}
