//! A turn put after a text.

ghost use Rattle.std.specs.Prelude.{◌≡◌, ◌++◌, ◌∷◌, [], codes, OnOk};
ghost use Rattle.cert_writer.specs.Pieces.{spaced};
ghost use Rattle.cert_writer.specs.Text.{model_word, turn_body_words, turn_letter, turn_text, with_newline};

use crate::put_words::{bit_word, put_marked_log, put_place, put_word};
use base_lists::{Memory, put};
use design_circuit::Place;
use law_model::Turn;

/// Puts the turn of a boundary place and a newline after a text. Takes the text's bytes, in steps that double.
pub fn put_turn(text: &mut Vec<u8>, place: Place, turn: &Turn) -> Result<(), Memory>
    ensures { OnOk result
        (text.new.items ≡ text.old.items ++ with_newline (turn_text (record { place = place; turn = turn.now }))) }
{
    put(text, &[letter_of(turn)])?;
    put_place(text, place)?;
    put_body(text, turn)?;
    put(text, b"\n")?;
    Ok(())
}

fn letter_of(turn: &Turn) -> u8
    ensures { result ∷ [] ≡ turn_letter turn.now }
{
    match turn {
        Turn::Dropped(_) => b'-',
        Turn::Needed(_) => b'+',
        Turn::Tried(_) => b'~',
    }
}

// ":" log | ":" model
fn put_body(text: &mut Vec<u8>, turn: &Turn) -> Result<(), Memory>
    ensures { OnOk result (text.new.items ≡ text.old.items ++ spaced (codes ":" ∷ turn_body_words turn.now)) }
{
    match turn {
        Turn::Dropped(log) => put_marked_log(text, log),
        Turn::Needed(model) => {
            put_word(text, b":")?;
            put_model(text, model.as_slice())
        }
        Turn::Tried(log) => put_marked_log(text, log),
    }
}

fn put_model(text: &mut Vec<u8>, model: &[bool]) -> Result<(), Memory>
    ensures { OnOk result (text.new.items ≡ text.old.items ++ spaced (model_word model.now ∷ [])) }
{
    put(text, b" ")?;
    put_values(text, model)
}

// model = value { value }
fn put_values(text: &mut Vec<u8>, values: &[bool]) -> Result<(), Memory>
    ensures { OnOk result (text.new.items ≡ text.old.items ++ model_word values.now) }
{
    'values: for value in values {
        put(text, bit_word(*value))?;
    }
    Ok(())
}
