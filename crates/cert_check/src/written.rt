//! The lines between a certificate's second line and its last one, put after a text.

ghost use Rattle.std.specs.Prelude.{◌≡◌, ◌+◌, ◌≤◌, ◌++◌, length, map, IfOk};
ghost use Rattle.std.specs.List.{flat_map};
ghost use Rattle.cert_turns.specs.TurnLines.{turn_lines};
ghost use Rattle.cert_writer.specs.Text.{entry_text, turn_text, with_newline};
ghost use Rattle.cert_check.specs.Entries.{entries_of};

use crate::lines::gives_bit;
use base_lists::Memory;
use cert_turns::Condition;
use cert_writer::{put_line, put_turn};
use law_model::Line;

/// Puts lines, and behind each that gives a bit the turns of the next condition; and how many lines of the text these
/// are.
pub fn put_lines(
    text: &mut Vec<u8>,
    lines: &[Line],
    conditions: &[Condition],
) -> Result<usize, Memory>
    ensures text { let entries = entries_of lines.now conditions.now in
        IfOk result (λ _. text.new.items ≡ text.old.items ++ flat_map with_newline (map entry_text entries)) }
    ensures count { IfOk result (λ count. count ≡ length (entries_of lines.now conditions.now)) }
{
    let mut left = lines;
    let mut unused = conditions;
    let mut count: usize = 0;
    'lines: while let [line, others @ ..] = left {
        put_line(text, line)?;
        count += 1;
        if gives_bit(&line.body) {
            if let [condition, rest @ ..] = unused {
                count += put_turns(text, condition)?;
                unused = rest;
            }
        }
        left = others;
    }
    Ok(count)
}

/// Puts the turns of a condition; and how many there are.
fn put_turns(text: &mut Vec<u8>, condition: &Condition) -> Result<usize, Memory>
    ensures text { IfOk result
        (λ _. text.new.items ≡ text.old.items ++ flat_map with_newline (map turn_text (turn_lines condition.now))) }
    ensures count { IfOk result (λ count. count ≡ length (turn_lines condition.now)) }
    ensures few { IfOk result (λ count. length text.old.items + count ≤ length text.new.items) }
{
    let mut places = condition.boundary();
    let mut turns = condition.turns();
    let mut count: usize = 0;
    'turns: while let [turn, later @ ..] = turns {
        let [place, others @ ..] = places else {
            return Ok(count);
        };
        put_turn(text, *place, turn)?;
        count += 1;
        places = others;
        turns = later;
    }
    Ok(count)
}
