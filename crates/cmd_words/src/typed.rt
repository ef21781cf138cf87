//! Values of options as numbers and choices.

ghost use Rattle.std.specs.Prelude.{◌≡◌, ◌≤◌, ℕ, Some, IfSome, IfNone, codes, option_map};
ghost use Rattle.base_line.specs.Read.{value_of};
ghost use Rattle.cmd_words.specs.declared.words.Form.{Form};
ghost use Rattle.cmd_words.specs.declared.words.Levels.{Levels};
ghost use Rattle.cmd_words.specs.declared.words.Start.{Start};
ghost use Rattle.cmd_words.specs.declared.words.Undriven.{Undriven};
ghost use Rattle.cmd_words.specs.Words.{AreLevels, IsCount, IsForm, IsSourceCount, IsStart, IsUndriven};

use crate::words::{Form, Levels, Start, Undriven};
use base_line::{Line, number_in};

/// The most clauses of a search, and how many there are where none are given.
const MOST_CONFLICTS: u32 = 100_000;

const CONFLICTS: u32 = 1_000;

/// The sources at most of which all fillings are tried: no more than so many, and how many where none are named.
const MOST_SOURCES: u64 = 16;

const SOURCES: u32 = 12;

/// The most places that the words of a job may name, 2^40, and how many there are where none are given, 2^27.
const MOST_PLACES: u64 = 1_099_511_627_776;

const PLACE_LIMIT: u64 = 134_217_728;

/// The clauses of a search that a line names.
pub fn conflicts_of(line: &Line<'_>) -> Option<u32>
    ensures count { IfSome result (IsCount (value_of line.now (codes "conflicts")) 1000 100000) }
    ensures least { IfSome result (λ count. 1 ≤ count) }
    ensures most { IfSome result (λ count. count ≤ 100000) }
    ensures none { IfNone result ((count : ℕ) → IsCount (value_of line.now (codes "conflicts")) 1000 100000 count → ⊥) }
{
    count_of(line.get("conflicts"), CONFLICTS, MOST_CONFLICTS)
}

/// The sources at most of which all fillings are tried, as a line names them.
pub fn enumerated_of(line: &Line<'_>) -> Option<u32>
    ensures count { IfSome result (IsSourceCount (value_of line.now (codes "enumerate"))) }
    ensures least { IfSome result (λ count. 12 ≤ count) }
    ensures most { IfSome result (λ count. count ≤ 16) }
    ensures none { IfNone result ((count : ℕ) → IsSourceCount (value_of line.now (codes "enumerate")) count → ⊥) }
{
    match line.get("enumerate") {
        Some(text) => sources_in(text),
        None => Some(SOURCES),
    }
}

fn sources_in(text: &str) -> Option<u32>
    ensures count { IfSome result (IsSourceCount (Some text.now)) }
    ensures none { IfNone result ((count : ℕ) → IsSourceCount (Some text.now) count → ⊥) }
{
    let number = number_in(text)?;
    if number < u64::from(SOURCES) || MOST_SOURCES < number {
        return None;
    }
    Some(number as u32)
}

/// The most places of a job that a line names.
pub fn places_of(line: &Line<'_>) -> Option<u64>
    ensures count { IfSome result (IsCount (value_of line.now (codes "places")) 134217728 1099511627776) }
    ensures least { IfSome result (λ count. 1 ≤ count) }
    ensures most { IfSome result (λ count. count ≤ 1099511627776) }
    ensures none { IfNone result ((count : ℕ)
        → IsCount (value_of line.now (codes "places")) 134217728 1099511627776 count → ⊥) }
{
    long_count_of(line.get("places"), PLACE_LIMIT, MOST_PLACES)
}

/// The number of an option that may be absent, from 1 to `most`.
pub fn count_of(text: Option<&str>, absent: u32, most: u32) -> Option<u32>
    requires least { 1 ≤ absent }
    requires most { absent ≤ most }
    ensures count { IfSome result (λ count. IsCount (option_map (λ s. s.now) text.entry) absent most count) }
    ensures least { IfSome result (λ count. 1 ≤ count) }
    ensures most { IfSome result (λ count. count ≤ most) }
    ensures none { IfNone result ((count : ℕ) → IsCount (option_map (λ s. s.now) text.entry) absent most count → ⊥) }
{
    let count = long_count_of(text, u64::from(absent), u64::from(most))?;
    Some(count as u32)
}

/// The same in 64 bits.
fn long_count_of(text: Option<&str>, absent: u64, most: u64) -> Option<u64>
    requires least { 1 ≤ absent }
    requires most { absent ≤ most }
    ensures count { IfSome result (IsCount (option_map (λ s. s.now) text.entry) absent most) }
    ensures least { IfSome result (λ count. 1 ≤ count) }
    ensures most { IfSome result (λ count. count ≤ most) }
    ensures none { IfNone result ((count : ℕ) → IsCount (option_map (λ s. s.now) text.entry) absent most count → ⊥) }
{
    match text {
        Some(text) => count_in(text, most),
        None => Some(absent),
    }
}

fn count_in(text: &str, most: u64) -> Option<u64>
    ensures count { IfSome result (λ count. IsCount (Some text.now) 1 most count) }
    ensures none { IfNone result ((count : ℕ) → IsCount (Some text.now) 1 most count → ⊥) }
{
    let number = number_in(text)?;
    if number < 1 || most < number {
        return None;
    }
    Some(number)
}

/// The start that an option names, cold where it is absent.
pub fn start_of(text: Option<&str>) -> Option<Start>
    ensures start { IfSome result (IsStart (option_map (λ s. s.now) text.entry)) }
    ensures none { IfNone result ((start : Start) → IsStart (option_map (λ s. s.now) text.entry) start → ⊥) }
{
    match text {
        Some(text) => start_in(text),
        None => Some(Start::Cold),
    }
}

fn start_in(text: &str) -> Option<Start>
    ensures start { IfSome result (IsStart (Some text.now)) }
    ensures none { IfNone result ((start : Start) → IsStart (Some text.now) start → ⊥) }
{
    match text {
        "cold" => Some(Start::Cold),
        "recorded" => Some(Start::Recorded),
        _ => None,
    }
}

/// When levels decide registers as an option says, by change where it is absent.
pub fn levels_of(text: Option<&str>) -> Option<Levels>
    ensures levels { IfSome result (AreLevels (option_map (λ s. s.now) text.entry)) }
    ensures none { IfNone result ((levels : Levels) → AreLevels (option_map (λ s. s.now) text.entry) levels → ⊥) }
{
    match text {
        Some(text) => levels_in(text),
        None => Some(Levels::Change),
    }
}

fn levels_in(text: &str) -> Option<Levels>
    ensures levels { IfSome result (AreLevels (Some text.now)) }
    ensures none { IfNone result ((levels : Levels) → AreLevels (Some text.now) levels → ⊥) }
{
    match text {
        "change" => Some(Levels::Change),
        "hold" => Some(Levels::Hold),
        _ => None,
    }
}

/// What an option says of nets without a driver; they are released where it is absent.
pub fn undriven_of(text: Option<&str>) -> Option<Undriven>
    ensures undriven { IfSome result (IsUndriven (option_map (λ s. s.now) text.entry)) }
    ensures none { IfNone result ((undriven : Undriven)
        → IsUndriven (option_map (λ s. s.now) text.entry) undriven → ⊥) }
{
    match text {
        Some(text) => undriven_in(text),
        None => Some(Undriven::Released),
    }
}

fn undriven_in(text: &str) -> Option<Undriven>
    ensures undriven { IfSome result (IsUndriven (Some text.now)) }
    ensures none { IfNone result ((undriven : Undriven) → IsUndriven (Some text.now) undriven → ⊥) }
{
    match text {
        "released" => Some(Undriven::Released),
        "recorded" => Some(Undriven::Recorded),
        _ => None,
    }
}

/// The form that an option names, form 1 where it is absent.
pub fn form_of(text: Option<&str>) -> Option<Form>
    ensures form { IfSome result (IsForm (option_map (λ s. s.now) text.entry)) }
    ensures none { IfNone result ((form : Form) → IsForm (option_map (λ s. s.now) text.entry) form → ⊥) }
{
    match text {
        Some(text) => form_in(text),
        None => Some(Form::Lines),
    }
}

fn form_in(text: &str) -> Option<Form>
    ensures form { IfSome result (IsForm (Some text.now)) }
    ensures none { IfNone result ((form : Form) → IsForm (Some text.now) form → ⊥) }
{
    match number_in(text)? {
        1 => Some(Form::Lines),
        2 => Some(Form::Turns),
        _ => None,
    }
}
