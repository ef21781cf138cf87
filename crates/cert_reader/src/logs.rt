//! Logs, word by word.

ghost use Rattle.std.specs.Prelude.{◌≡◌, ◌<◌, List, ℤ, length, IfOk, IfSome};
ghost use Rattle.std.specs.List.{All};
ghost use Rattle.sat_proof.specs.Assignment.{HasNoZero};
ghost use Rattle.cert_reader.specs.Machine.{is_end, log_of_words, log_end, log_from};
ghost use Rattle.cert_reader.specs.Reading.{Gives, IsNextLiteral};

use crate::numbers::literal_of_word;
use crate::pieces::Words;
use crate::refusal::LineErr;
use sat_proof::{Clause, Log};
use std::alloc::Global;

// log = clause { clause }
/// The log that the words up to the end are.
pub fn log(alloc: Global, words: &mut Words<'_>) -> Result<Log, LineErr>
    ensures { Gives result (log_of_words words.old) }
{
    let mut clauses = Vec::new(alloc);
    let mut literals: Vec<i32> = Vec::new(alloc);
    'words: while let Some(literal) = next_literal(words)? {
        if is_end(literal) {
            clauses.push(Clause::from_vec(literals))?;
            literals = Vec::new(alloc);
        } else {
            literals.push(literal)?;
        }
    }
    finished(clauses, &literals)
}

/// The next literal, or none where no word is left.
fn next_literal(words: &mut Words<'_>) -> Result<Option<i32>, LineErr>
    ensures reads { (clauses : List (List ℤ)) (literals : List ℤ)
        → IsNextLiteral clauses literals result (log_from clauses literals words.old) words.new }
    ensures shorter { IfOk result (λ found. IfSome found (λ _. length words.new < length words.old)) }
{
    match words.next() {
        None => Ok(None),
        Some(word) => match literal_of_word(word) {
            None => Err(LineErr::Wrong),
            Some(literal) => Ok(Some(literal)),
        },
    }
}

fn is_end(literal: i32) -> bool
    ensures { result ≡ is_end literal }
{
    literal == 0
}

/// The log of these clauses, where there is one and none is open.
fn finished(clauses: Vec<Clause>, literals: &[i32]) -> Result<Log, LineErr>
    requires { All HasNoZero clauses.items }
    ensures { Gives result (log_end clauses.items literals.now) }
{
    if clauses.is_empty() {
        return Err(LineErr::Wrong);
    }
    match literals {
        [] => Ok(Log::from_vec(clauses)),
        [_, ..] => Err(LineErr::Wrong),
    }
}
