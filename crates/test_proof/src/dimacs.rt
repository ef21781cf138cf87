//! Formulas and logs in DIMACS: numbers with white space between them, each clause ended by 0; a line that begins
//! with `c` is a comment, and `p cnf VARIABLES CLAUSES` stands before a formula's clauses.

ghost use Rattle.std.specs.Prelude.{IfOk, IfSome};
ghost use Rattle.std.specs.List.{All};
ghost use Rattle.sat_proof.specs.Assignment.{HasNoZero};
ghost use Rattle.sat_proof.specs.Log.{Fit};

use base_lists::Items;
use sat_proof::{Clause, Cnf, Log};
use std::alloc::{AllocError, Global};
use std::mem;

/// The numbers of a text; none where a word is none.
pub(crate) fn numbers_of(alloc: Global, text: &str) -> Result<Option<Vec<i32>>, AllocError> {
    let mut numbers = Vec::new(alloc);
    for line in text.split('\n') {
        if !is_head(line) && !put_numbers(&mut numbers, line)? {
            return Ok(None);
        }
    }
    Ok(Some(numbers))
}

fn is_head(line: &str) -> bool {
    line == "none" || line.starts_with("c ") || line.starts_with("p ")
}

/// Puts the numbers of a line; whether all its words are numbers.
fn put_numbers(numbers: &mut Vec<i32>, line: &str) -> Result<bool, AllocError> {
    for word in line.split_whitespace() {
        let Ok(number) = word.parse::<i32>() else {
            return Ok(false);
        };
        numbers.push(number)?;
    }
    Ok(true)
}

/// The number of variables that a text's head says, twelve without a head.
fn vars_of(text: &str) -> u32 {
    for line in text.split('\n') {
        if let Some(counts) = line.strip_prefix("p cnf ") {
            let (vars, _) = counts.split_once(' ').unwrap_or((counts, ""));
            return vars.parse::<u32>().unwrap_or(0);
        }
    }
    12
}

/// The formula of a text; none where a clause has no 0 or a variable over the number.
pub(crate) fn formula_of(alloc: Global, text: &str) -> Result<Option<Cnf>, AllocError> {
    match numbers_of(alloc, text)? {
        Some(numbers) => formula_over(alloc, numbers.as_slice(), vars_of(text)),
        None => Ok(None),
    }
}

/// The formula of these clauses over a given number of variables.
pub(crate) fn formula_over(
    alloc: Global,
    numbers: &[i32],
    vars: u32,
) -> Result<Option<Cnf>, AllocError> {
    if vars > 2147483647 {
        return Ok(None);
    }
    let Some(clauses) = clauses_of(alloc, numbers, vars)? else {
        return Ok(None);
    };
    Ok(Some(Cnf {
        vars,
        clauses: Items::from_vec(clauses),
    }))
}

/// The log of these clauses over a given number of variables.
pub(crate) fn log_of(alloc: Global, numbers: &[i32], vars: u32) -> Result<Option<Log>, AllocError>
    ensures { IfOk result (λ o. IfSome o (λ log. Fit vars log)) }
{
    match clauses_of(alloc, numbers, vars)? {
        Some(clauses) => Ok(Some(Log::from_vec(clauses))),
        None => Ok(None),
    }
}

fn clauses_of(alloc: Global, numbers: &[i32], vars: u32) -> Result<Option<Vec<Clause>>, AllocError>
    ensures fit { IfOk result (λ o. IfSome o (λ clauses. Fit vars clauses.items)) }
    ensures no_zero { IfOk result (λ o. IfSome o (λ clauses. All HasNoZero clauses.items)) }
{
    let mut clauses = Vec::new(alloc);
    let mut literals = Vec::new(alloc);
    for k in 0..numbers.len() {
        let number = numbers[k];
        if number == 0 {
            clauses.push(Clause::from_vec(mem::replace(&mut literals, Vec::new(alloc))))?;
        } else if number.unsigned_abs() > vars {
            return Ok(None);
        } else {
            literals.push(number)?;
        }
    }
    if literals.len() > 0 {
        return Ok(None);
    }
    Ok(Some(clauses))
}
