//! Words put after a text, a space before each.

ghost use Rattle.std.specs.Prelude.{◌≡◌, ◌++◌, ◌∷◌, [], codes, map, OnOk};
ghost use Rattle.std.specs.Fmt.{signed_decimal};
ghost use Rattle.cert_writer.specs.Pieces.{spaced};
ghost use Rattle.cert_writer.specs.Text.{bit_word, clause_words, filling_words, log_words, place_words};

use base_lists::{Memory, put, put_number};
use design_circuit::Place;
use itoa::Buffer;
use sat_proof::{Clause, Log};

// filling = { place }
pub fn put_filling(text: &mut Vec<u8>, places: &[Place]) -> Result<(), Memory>
    ensures { OnOk result (text.new.items ≡ text.old.items ++ spaced (filling_words places.now)) }
{
    'places: for place in places {
        put_place(text, *place)?;
    }
    Ok(())
}

pub fn put_place(text: &mut Vec<u8>, place: Place) -> Result<(), Memory>
    ensures { OnOk result (text.new.items ≡ text.old.items ++ spaced (place_words place)) }
{
    put(text, b" ")?;
    put_number(text, u64::from(place.step))?;
    put(text, b" ")?;
    put_number(text, u64::from(place.net))
}

// ":" log
pub fn put_marked_log(text: &mut Vec<u8>, log: &Log) -> Result<(), Memory>
    ensures { OnOk result (text.new.items ≡ text.old.items ++ spaced (codes ":" ∷ log_words log.now)) }
{
    put_word(text, b":")?;
    put_log(text, log.as_slice())?;
    Ok(())
}

// log = { clause }
fn put_log(text: &mut Vec<u8>, log: &[Clause]) -> Result<(), Memory>
    ensures { OnOk result (text.new.items ≡ text.old.items ++ spaced (log_words log.now)) }
{
    'clauses: for place in 0..log.len() {
        put_clause(text, log[place].as_slice())?;
    }
    Ok(())
}

// clause = { literal } "0"
fn put_clause(text: &mut Vec<u8>, literals: &[i32]) -> Result<(), Memory>
    ensures { OnOk result (text.new.items ≡ text.old.items ++ spaced (clause_words literals.now)) }
{
    put_literals(text, literals)?;
    put_word(text, b"0")?;
    Ok(())
}

fn put_literals(text: &mut Vec<u8>, literals: &[i32]) -> Result<(), Memory>
    ensures { OnOk result (text.new.items ≡ text.old.items ++ spaced (map signed_decimal literals.now)) }
{
    'literals: for literal in literals {
        put_literal(text, *literal)?;
    }
    Ok(())
}

fn put_literal(text: &mut Vec<u8>, literal: i32) -> Result<(), Memory>
    ensures { OnOk result (text.new.items ≡ text.old.items ++ spaced (signed_decimal literal ∷ [])) }
{
    put(text, b" ")?;
    let mut digits = Buffer::new();
    text.extend_from_slice(digits.format(literal).as_bytes())?;
    Ok(())
}

pub fn put_word(text: &mut Vec<u8>, word: &[u8]) -> Result<(), Memory>
    ensures { OnOk result (text.new.items ≡ text.old.items ++ spaced (word.now ∷ [])) }
{
    put(text, b" ")?;
    put(text, word)
}

pub fn bit_word(bit: bool) -> &'static [u8]
    ensures { result.now ≡ bit_word bit }
{
    if bit { b"1" } else { b"0" }
}
