//! The texts of formulas and logs.

ghost use Rattle.std.specs.Prelude.{◌≡◌, ◌++◌, IfOk, OnOk, codes};
ghost use Rattle.std.specs.List.{flat_map};
ghost use Rattle.sat_dimacs.specs.Text.{clause_line, clause_text, cnf_text, header_text, literal_text, log_text};

use base_lists::{Memory, put, put_number};
use itoa::Buffer;
use sat_proof::{Clause, Cnf, Log};
use std::alloc::Global;

/// The text of a formula: the header, and a clause a line. Takes the text's bytes, in steps that double.
pub fn write_cnf(alloc: Global, cnf: &Cnf) -> Result<Vec<u8>, Memory>
    ensures { IfOk result (λ text. text.items ≡ cnf_text cnf.now.vars cnf.now.clauses) }
{
    let mut text = Vec::new(alloc);
    let clauses = cnf.clauses.as_slice();
    put_header(&mut text, cnf.vars, clauses.len())?;
    put_clauses(&mut text, clauses)?;
    Ok(text)
}

/// The text of a log: a clause a line. Takes the text's bytes, in steps that double.
pub fn write_log(alloc: Global, log: &Log) -> Result<Vec<u8>, Memory>
    ensures { IfOk result (λ text. text.items ≡ log_text log.now) }
{
    let mut text = Vec::new(alloc);
    put_clauses(&mut text, log.as_slice())?;
    Ok(text)
}

// header = "p cnf" number number
fn put_header(text: &mut Vec<u8>, vars: u32, count: usize) -> Result<(), Memory>
    ensures { OnOk result (text.new.items ≡ text.old.items ++ (header_text vars count ++ codes "\n")) }
{
    put(text, b"p cnf ")?;
    put_number(text, u64::from(vars))?;
    put(text, b" ")?;
    put_number(text, count as u64)?;
    put(text, b"\n")
}

fn put_clauses(text: &mut Vec<u8>, clauses: &[Clause]) -> Result<(), Memory>
    ensures { OnOk result (text.new.items ≡ text.old.items ++ flat_map clause_line clauses.now) }
{
    'clauses: for place in 0..clauses.len() {
        put_clause(text, clauses[place].as_slice())?;
    }
    Ok(())
}

// clause = { literal } "0"
fn put_clause(text: &mut Vec<u8>, literals: &[i32]) -> Result<(), Memory>
    ensures { OnOk result (text.new.items ≡ text.old.items ++ clause_line literals.now) }
{
    put_literals(text, literals)?;
    put(text, b"0\n")
}

fn put_literals(text: &mut Vec<u8>, literals: &[i32]) -> Result<(), Memory>
    ensures { OnOk result (text.new.items ≡ text.old.items ++ flat_map literal_text literals.now) }
{
    'literals: for literal in literals {
        put_literal(text, *literal)?;
    }
    Ok(())
}

fn put_literal(text: &mut Vec<u8>, literal: i32) -> Result<(), Memory>
    ensures { OnOk result (text.new.items ≡ text.old.items ++ literal_text literal) }
{
    let mut digits = Buffer::new();
    text.extend_from_slice(digits.format(literal).as_bytes())?;
    put(text, b" ")
}
