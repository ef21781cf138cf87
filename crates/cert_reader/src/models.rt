//! Models by their words.

ghost use Rattle.std.specs.Prelude.{◌≡◌, ◌==◌, map};
ghost use Rattle.std.specs.List.{list_all};
ghost use Rattle.cert_reader.specs.Machine.{is_value, model_of_word, model_of_words};
ghost use Rattle.cert_reader.specs.Reading.{Gives};

use crate::line::end;
use crate::pieces::Words;
use crate::refusal::LineErr;
use sat_proof::Model;
use std::alloc::Global;

/// The model that the words up to the end are.
pub fn model(alloc: Global, words: &mut Words<'_>) -> Result<Model, LineErr>
    ensures { Gives result (model_of_words words.old) }
{
    let word = words.need()?;
    end(words)?;
    model_of_word(alloc, word)
}

// model = value { value }
fn model_of_word(alloc: Global, word: &[u8]) -> Result<Model, LineErr>
    ensures { Gives result (model_of_word word.now) }
{
    if 0 < word.len() && all_values(word) {
        values(alloc, word)
    } else {
        Err(LineErr::Wrong)
    }
}

fn all_values(word: &[u8]) -> bool
    ensures { result ≡ list_all is_value word.now }
{
    word.iter().all(|b| is_value(*b))
}

// value = "0" | "1"
fn is_value(b: u8) -> bool
    ensures { result ≡ is_value b }
{
    b == b'0' || b == b'1'
}

fn values(alloc: Global, word: &[u8]) -> Result<Model, LineErr>
    ensures { Gives result (Some (map (λ b. b == 49) word.now)) }
{
    let mut values = Vec::new(alloc);
    'digits: for digit in word {
        values.push(*digit == b'1')?;
    }
    Ok(Model::from_vec(values))
}
