//! The lines of refusals.

use crate::job::Job;
use crate::words::put_count;
use base_lists::{Memory, put};
use cert_check::CertFault;
use design_circuit::{Design, Place, Stim};
use law_model::Body;
use std::alloc::Global;
use std::fmt::Write;
use wave_proved::Optimistic;

/// Puts why a certificate is refused, in a line.
pub fn put_fault(out: &mut Vec<u8>, job: &Job<'_>, fault: CertFault) -> Result<(), Memory> {
    put_words(job.alloc, out, fault)?;
    if let CertFault::Missing { place } = fault {
        put_place(out, job, place)?;
    }
    put(out, b"\n")
}

/// Puts the words of a refused certificate.
pub fn put_words(alloc: Global, out: &mut Vec<u8>, fault: CertFault) -> Result<(), Memory> {
    let mut line = String::new(alloc);
    write!(line, "refused: {fault}")?;
    put(out, line.as_str().as_bytes())
}

/// Puts a place that is found otherwise than the replay knows it, in a line.
pub fn put_objection(out: &mut Vec<u8>, job: &Job<'_>, found: &Optimistic) -> Result<(), Memory> {
    put(out, b"refused: optimistic")?;
    put_place(out, job, found.place)?;
    put_found(out, found)
}

fn put_found(out: &mut Vec<u8>, found: &Optimistic) -> Result<(), Memory> {
    put_letter(out, b" replayed ", found.replayed.letter())?;
    put_letter(out, b" found ", found.found.letter())?;
    put_count(out, b" undecided ", count_undecided(found))?;
    put(out, b"\n")
}

fn put_letter(out: &mut Vec<u8>, words: &[u8], letter: u8) -> Result<(), Memory> {
    put(out, words)?;
    put(out, &[letter])
}

fn count_undecided(found: &Optimistic) -> u64 {
    let mut count = 0u64;
    for line in found.lines.as_slice() {
        if is_undecided(&line.body) {
            count = count.saturating_add(1);
        }
    }
    count
}

fn is_undecided(body: &Body) -> bool {
    match body {
        Body::Undecided(_) => true,
        _ => false,
    }
}

/// Puts a place by its time, its round and its net's written name, after a space.
fn put_place(out: &mut Vec<u8>, job: &Job<'_>, place: Place) -> Result<(), Memory> {
    put_step(out, &job.recorded.stim, place.step)?;
    put_net(job.alloc, out, &job.netlist.design, place.net)
}

fn put_step(out: &mut Vec<u8>, stim: &Stim, step: u32) -> Result<(), Memory> {
    let moment = step.checked_div(stim.rounds).unwrap_or(0);
    let round = step.checked_rem(stim.rounds).unwrap_or(0);
    let time = stim.times.as_slice().get(moment as usize).copied();
    put_count(out, b" #", time.unwrap_or(0))?;
    put_count(out, b" round ", u64::from(round))?;
    put(out, b" ")
}

fn put_net(alloc: Global, out: &mut Vec<u8>, design: &Design, net: u32) -> Result<(), Memory> {
    if net as usize >= design.nets.as_slice().len() {
        return put(out, b"no net");
    }
    let name = design.written_name(alloc, net)?;
    put(out, name.as_slice())
}
