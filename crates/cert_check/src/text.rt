//! The text of a wave's certificate, and a certificate by its text.

ghost use Rattle.std.specs.Prelude.{◌≡◌, IfErr, IfOk, MatchResult};
ghost use Rattle.cert_writer.specs.declared.cert.Cert.{Cert as ACert};
ghost use Rattle.cert_writer.specs.Text.{cert_text};
ghost use Rattle.cert_writer.specs.Wrong.{IsTextOf};
ghost use Rattle.cert_check.specs.Checked.{IsReadRefusal};
ghost use Rattle.cert_check.specs.declared.refusal.CertErr.TheVariants.{Memory as OutOfMemory};
ghost use Rattle.cert_check.specs.Step.{cert_in};

use crate::refusal::{CertErr, CertFault};
use crate::written::put_lines;
use base_lists::Memory;
use cert_reader::{TextErr, read_text};
use cert_turns::Condition;
use cert_writer::{Cert, Form, Head, put_beginning, put_end};
use design_circuit::width_of;
use std::alloc::Global;
use wave_proved::Wave;

/// The text of a wave's certificate of a form: its lines, and behind each that gives a bit the turns of the next
/// condition. Takes the text's bytes, in steps that double.
pub fn write_cert(
    alloc: Global,
    wave: &Wave<'_>,
    form: Form,
    conditions: &[Condition],
) -> Result<Vec<u8>, Memory>
    ensures { IfOk result (λ text. text.items ≡ cert_text (cert_in form wave.now conditions.now)) }
{
    let circuit = wave.circuit();
    let head = Head {
        rounds: circuit.stim.rounds,
        conflicts: wave.limits().conflicts,
        moments: circuit.stim.times.as_slice().len() as u32,
        nets: width_of(&circuit) as u32,
    };
    let mut text = Vec::new(alloc);
    put_beginning(&mut text, form, head)?;
    let count = put_lines(&mut text, wave.lines(), conditions)?;
    put_end(&mut text, count)?;
    Ok(text)
}

/// The certificate that a text stands for, or its first wrong line. Takes the memory of the lines.
pub fn read_cert(alloc: Global, bytes: &[u8]) -> Result<Cert, CertErr>
    ensures found { IfOk result (IsTextOf bytes.now) }
    ensures only { (cert : ACert) → IsTextOf bytes.now cert
        → MatchResult result (λ c. c ≡ cert) (λ e. e ≡ OutOfMemory) }
    ensures refused { IfErr result (IsReadRefusal bytes.now) }
{
    match read_text(alloc, bytes) {
        Ok(cert) => Ok(cert),
        Err(TextErr::Refused(wrong)) => Err(CertErr::Refused(CertFault::Syntax {
            line: wrong.line,
        })),
        Err(TextErr::Memory) => Err(CertErr::Memory),
    }
}
