//! Certificates read, written by repairs, and checked.

ghost use Rattle.test_cert.specs.Job.{FitsJob};

use crate::case::Texts;
use crate::job::Job;
use crate::refusal::{put_fault, put_objection, put_words};
use crate::words::put_count;
use base_lists::{Memory, put};
use cert_check::{Cert, CertErr, CheckErr, Checked, Entry, Form, read_cert, write_cert};
use cert_turns::conditions_of;
use cert_writer::{put_beginning, put_end, put_line, put_turn};
use decide_repair::RepairErr;
use report_bits::counts_of;
use std::alloc::Global;
use wave_proved::Wave;

/// Puts what the reading of a certificate comes to, and whether its text is the same when it is written again.
pub fn put_read(alloc: Global, out: &mut Vec<u8>, texts: &Texts) -> Result<(), Memory> {
    let Some(text) = &texts.cert else {
        return put(out, b"no certificate\n");
    };
    match read_cert(alloc, text.as_slice()) {
        Ok(cert) => put_again(alloc, out, text.as_slice(), &cert),
        Err(CertErr::Refused(fault)) => {
            put_words(alloc, out, fault)?;
            put(out, b"\n")
        }
        Err(CertErr::Memory) => Err(Memory),
    }
}

fn put_again(alloc: Global, out: &mut Vec<u8>, text: &[u8], cert: &Cert) -> Result<(), Memory> {
    let again = text_of(alloc, cert)?;
    if again.as_slice() == text {
        put(out, b"ok\n")
    } else {
        put(out, b"written otherwise\n")
    }
}

/// The text of a certificate, line by line.
fn text_of(alloc: Global, cert: &Cert) -> Result<Vec<u8>, Memory> {
    let mut text = Vec::new(alloc);
    put_text(&mut text, cert)?;
    Ok(text)
}

fn put_text(text: &mut Vec<u8>, cert: &Cert) -> Result<(), Memory> {
    let entries = cert.entries.as_slice();
    put_beginning(text, cert.form, cert.head)?;
    for entry in entries {
        put_entry(text, entry)?;
    }
    put_end(text, entries.len())
}

fn put_entry(text: &mut Vec<u8>, entry: &Entry) -> Result<(), Memory> {
    match entry {
        Entry::Line(line) => put_line(text, line),
        Entry::Turn(line) => put_turn(text, line.place, &line.turn),
    }
}

/// Puts the certificate of a form that the repair of a job writes.
pub fn put_own(out: &mut Vec<u8>, job: &Job<'_>, form: Form) -> Result<(), Memory>
    requires { FitsJob job.now }
{
    match own_text(job, form) {
        Ok(text) => put(out, text.as_slice()),
        Err(refusal) => put_unrepaired(out, job, &refusal),
    }
}

fn put_unrepaired(out: &mut Vec<u8>, job: &Job<'_>, refusal: &RepairErr) -> Result<(), Memory> {
    match refusal {
        RepairErr::Optimistic(found) => put_objection(out, job, found),
        RepairErr::Memory => Err(Memory),
    }
}

fn own_text(job: &Job<'_>, form: Form) -> Result<Vec<u8>, RepairErr>
    requires { FitsJob job.now }
{
    let wave = job.repaired()?;
    Ok(text_in(job.alloc, form, &wave)?)
}

fn text_in(alloc: Global, form: Form, wave: &Wave<'_>) -> Result<Vec<u8>, Memory> {
    let conditions = match form {
        Form::Lines => Vec::new(alloc),
        Form::Turns => conditions_of(alloc, wave)?,
    };
    write_cert(alloc, wave, form, conditions.as_slice())
}

/// Puts what the check of a certificate comes to: the case's, or the repair's own where it has none.
pub fn put_checked(out: &mut Vec<u8>, job: &Job<'_>, texts: &Texts) -> Result<(), Memory>
    requires { FitsJob job.now }
{
    match &texts.cert {
        Some(text) => put_check(out, job, text.as_slice()),
        None => {
            put_own_checked(out, job, Form::Lines)?;
            put_own_checked(out, job, Form::Turns)
        }
    }
}

fn put_own_checked(out: &mut Vec<u8>, job: &Job<'_>, form: Form) -> Result<(), Memory>
    requires { FitsJob job.now }
{
    match own_text(job, form) {
        Ok(text) => put_check(out, job, text.as_slice()),
        Err(refusal) => put_unrepaired(out, job, &refusal),
    }
}

fn put_check(out: &mut Vec<u8>, job: &Job<'_>, text: &[u8]) -> Result<(), Memory>
    requires { FitsJob job.now }
{
    match read_cert(job.alloc, text) {
        Ok(cert) => put_cert(out, job, text, cert),
        Err(CertErr::Refused(fault)) => put_fault(out, job, fault),
        Err(CertErr::Memory) => Err(Memory),
    }
}

fn put_cert(out: &mut Vec<u8>, job: &Job<'_>, text: &[u8], cert: Cert) -> Result<(), Memory>
    requires { FitsJob job.now }
{
    let form = cert.form;
    match job.checked(cert) {
        Ok(checked) => put_accepted_text(out, job, text, form, &checked),
        Err(refusal) => put_refused(out, job, &refusal),
    }
}

fn put_refused(out: &mut Vec<u8>, job: &Job<'_>, refusal: &CheckErr) -> Result<(), Memory> {
    match refusal {
        CheckErr::Refused(fault) => put_fault(out, job, *fault),
        CheckErr::Optimistic(found) => put_objection(out, job, found),
        CheckErr::Memory => Err(Memory),
    }
}

/// Puts how many places of a checked wave have which end. Its own text is the certificate's.
fn put_accepted_text(
    out: &mut Vec<u8>,
    job: &Job<'_>,
    text: &[u8],
    form: Form,
    checked: &Checked<'_>,
) -> Result<(), Memory> {
    let again = write_cert(
        job.alloc,
        &checked.wave,
        form,
        checked.conditions.as_slice(),
    )?;
    if again.as_slice() != text {
        return put(out, b"another text\n");
    }
    put_accepted(job.alloc, out, &checked.wave)
}

fn put_accepted(alloc: Global, out: &mut Vec<u8>, wave: &Wave<'_>) -> Result<(), Memory> {
    let counts = counts_of(alloc, wave)?;
    put_count(out, b"accepted known ", counts.known)?;
    put_count(out, b" repaired ", counts.repaired)?;
    put_count(out, b" unknown ", counts.unknown)?;
    put_count(out, b" undecided ", counts.undecided)?;
    put(out, b"\n")
}
