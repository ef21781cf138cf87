//! The line of a refusal.

ghost use Rattle.std.specs.Prelude.{◌≡◌, ◌++◌, IfOk, OnOk};
ghost use Rattle.base_lists.specs.Text.{line};
ghost use Rattle.cmd_phases.specs.Cause.{certificate_line, lack_line, objection_text, text_of};

use crate::cause::{Lack, Objection, Refused, Uncertified};
use base_lists::{Memory, put, put_number};
use cmd_job::{put_compare_line, put_netlist_line, put_recording_line};
use replay_code::put_code_line;
use report_fix::put_start_line;
use sat_prove::put_proof_line;
use std::alloc::Global;

/// The line of a refusal, with its newline.
pub fn line_of(alloc: Global, refused: &Refused) -> Result<Vec<u8>, Memory>
    ensures { IfOk result (λ bytes. bytes.items ≡ line (text_of refused.now)) }
{
    let mut text = Vec::new(alloc);
    put_text(alloc, &mut text, refused)?;
    text.push(b'\n')?;
    Ok(text)
}

fn put_text(alloc: Global, text: &mut Vec<u8>, refused: &Refused) -> Result<(), Memory>
    ensures { OnOk result (text.new.items ≡ text.old.items ++ text_of refused.now) }
{
    match refused {
        Refused::LongNetlist => put(text, b"refused: too large netlist"),
        Refused::Netlist(cause) => Ok(put_netlist_line(alloc, text, cause)?),
        Refused::LongRecording => put(text, b"refused: too large recording"),
        Refused::Recording(cause) => Ok(put_recording_line(alloc, text, cause)?),
        Refused::Compare(cause) => Ok(put_compare_line(alloc, text, cause)?),
        Refused::Optimistic(objection) => put_objection(text, objection),
        Refused::LongCode => put(text, b"refused: too large code"),
        Refused::Code(fault) => put_code_line(alloc, text, fault),
        Refused::LongCertificate => put(text, b"refused: too large certificate"),
        Refused::Certificate(cause) => put_uncertified(alloc, text, cause),
        Refused::LongCnf => put(text, b"refused: too large cnf"),
        Refused::LongLog => put(text, b"refused: too large log"),
        Refused::Proof(fault) => put_proof_line(alloc, text, fault),
        Refused::Start(fault) => put_start_line(alloc, text, fault),
    }
}

fn put_objection(text: &mut Vec<u8>, objection: &Objection) -> Result<(), Memory>
    ensures { OnOk result (text.new.items ≡ text.old.items ++ objection_text objection.now) }
{
    put(text, b"refused: optimistic #")?;
    put_number(text, objection.time)?;
    put(text, b" round ")?;
    put_number(text, u64::from(objection.round))?;
    put_both(text, b" ", objection.name.as_slice())?;
    put_both(text, b" replayed ", &[objection.replayed.letter()])?;
    put_both(text, b" found ", &[objection.found.letter()])?;
    put(text, b" undecided ")?;
    put_number(text, objection.undecided as u64)?;
    Ok(())
}

fn put_uncertified(alloc: Global, text: &mut Vec<u8>, cause: &Uncertified) -> Result<(), Memory>
    ensures { OnOk result (text.new.items ≡ text.old.items ++ certificate_line cause.now) }
{
    match cause {
        Uncertified::Line(fault) => {
            let words = format!(in alloc; "{fault}")?;
            put_both(text, b"refused: ", words.as_bytes())
        }
        Uncertified::Lacks(lack) => put_lack(text, lack),
    }
}

fn put_lack(text: &mut Vec<u8>, lack: &Lack) -> Result<(), Memory>
    ensures { OnOk result (text.new.items ≡ text.old.items ++ lack_line lack.now) }
{
    put(text, b"refused: certificate lacks #")?;
    put_number(text, lack.time)?;
    put(text, b" round ")?;
    put_number(text, u64::from(lack.round))?;
    put_both(text, b" ", lack.name.as_slice())?;
    Ok(())
}

fn put_both(text: &mut Vec<u8>, first: &[u8], second: &[u8]) -> Result<(), Memory>
    ensures { OnOk result (text.new.items ≡ text.old.items ++ (first.now ++ second.now)) }
{
    put(text, first)?;
    put(text, second)
}
