//! The line of a refusal, without its newline.

ghost use Rattle.std.specs.Prelude.{◌≡◌, ◌++◌, OnOk};
ghost use Rattle.sat_prove.specs.Proof.{clause_line, dimacs_line, fault_text, proof_line};

use crate::fault::ProofFault;
use base_lists::{Memory, put, put_number};
use sat_dimacs::DimacsFault;
use std::alloc::Global;

/// Puts the line of a fault.
pub fn put_proof_line(alloc: Global, text: &mut Vec<u8>, fault: &ProofFault) -> Result<(), Memory>
    ensures { OnOk result (text.new.items ≡ text.old.items ++ proof_line fault.now) }
{
    match fault {
        ProofFault::Text(fault) => put_dimacs_line(alloc, text, fault),
        ProofFault::Log { clause } => put_clause_line(text, *clause),
    }
}

fn put_dimacs_line(alloc: Global, text: &mut Vec<u8>, fault: &DimacsFault) -> Result<(), Memory>
    ensures { OnOk result (text.new.items ≡ text.old.items ++ dimacs_line fault.now) }
{
    let words = format!(in alloc; "{fault}")?;
    put(text, b"refused: dimacs line ")?;
    put_fault(text, fault.line(), words.as_bytes())
}

/// Puts the number of a line and what is wrong there.
fn put_fault(text: &mut Vec<u8>, line: usize, words: &[u8]) -> Result<(), Memory>
    ensures { OnOk result (text.new.items ≡ text.old.items ++ fault_text line words.now) }
{
    put_number(text, line as u64)?;
    put(text, b": ")?;
    put(text, words)
}

fn put_clause_line(text: &mut Vec<u8>, clause: usize) -> Result<(), Memory>
    ensures { OnOk result (text.new.items ≡ text.old.items ++ clause_line clause) }
{
    put(text, b"refused: log clause ")?;
    put_number(text, clause as u64)?;
    Ok(())
}
