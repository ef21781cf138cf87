//! A line put after a text.

ghost use Rattle.std.specs.Prelude.{◌≡◌, ◌++◌, ◌∷◌, [], codes, OnOk};
ghost use Rattle.cert_writer.specs.Pieces.{spaced};
ghost use Rattle.cert_writer.specs.Text.{body_letter, body_words, filling_words, line_text, with_newline};

use crate::put_words::{bit_word, put_filling, put_marked_log, put_place, put_word};
use base_lists::{Memory, put};
use design_circuit::Place;
use law_model::{Body, Line};

/// Puts the line of a Line place and a newline after a text. Takes the text's bytes, in steps that double.
pub fn put_line(text: &mut Vec<u8>, line: &Line) -> Result<(), Memory>
    ensures { OnOk result (text.new.items ≡ text.old.items ++ with_newline (line_text line.now)) }
{
    put(text, &[letter_of(&line.body)])?;
    put_place(text, line.place)?;
    put_body(text, &line.body)?;
    put(text, b"\n")?;
    Ok(())
}

fn letter_of(body: &Body) -> u8
    ensures { result ∷ [] ≡ body_letter body.now }
{
    match body {
        Body::Enumerated(_) => b'e',
        Body::Refuted(_, _) => b'r',
        Body::Pair(_, _) => b'u',
        Body::Undecided(_) => b'?',
    }
}

fn put_body(text: &mut Vec<u8>, body: &Body) -> Result<(), Memory>
    ensures { OnOk result (text.new.items ≡ text.old.items ++ spaced (body_words body.now)) }
{
    match body {
        Body::Enumerated(bit) => put_word(text, bit_word(*bit)),
        Body::Refuted(bit, log) => {
            put_word(text, bit_word(*bit))?;
            put_marked_log(text, log)
        }
        Body::Pair(zero, one) => put_pair(text, zero.as_slice(), one.as_slice()),
        Body::Undecided(log) => put_marked_log(text, log),
    }
}

// pair = ":" filling ";" filling
fn put_pair(text: &mut Vec<u8>, zero: &[Place], one: &[Place]) -> Result<(), Memory>
    ensures { OnOk result
        (text.new.items
        ≡ text.old.items ++ spaced (codes ":" ∷ filling_words zero.now ++ codes ";" ∷ filling_words one.now)) }
{
    put_word(text, b":")?;
    put_filling(text, zero)?;
    put_word(text, b";")?;
    put_filling(text, one)?;
    Ok(())
}
