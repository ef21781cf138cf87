//! All that is written of a wave, and what is printed.

ghost use Rattle.std.specs.Prelude.{◌≡◌, ◌∷◌, [], IfOk, OnOk, map};
ghost use Rattle.cert_check.specs.Step.{cert_of};
ghost use Rattle.cert_writer.specs.Text.{cert_text};
ghost use Rattle.base_run.specs.Outputs.{AreApart, file_of};
ghost use Rattle.base_run.specs.Prepared.{answer_of};
ghost use Rattle.cert_export.specs.Export.{Exports, cert_name, file};

use crate::lines::put_lines;
use crate::names::{cert_name, put_file};
use crate::report::{count_logs, report_text};
use base_lists::Memory;
use base_run::{Output, Ready, Report};
use cert_check::{Form, write_cert};
use std::alloc::Global;
use wave_proved::Wave;

/// The files of a wave and what is printed, ready to be delivered. Takes the bytes of all texts, which are kept until
/// they are written, and for a line the memory of the cone of its place.
pub fn export_texts<'a>(alloc: Global, prefix: &str, wave: &Wave<'_>) -> Result<Ready<'a>, Memory>
    ensures { IfOk result (λ ready. Exports prefix.now wave.now (answer_of ready)) }
{
    wave.recall();
    let mut outputs = Vec::new(alloc);
    put_certificate(alloc, &mut outputs, prefix, wave)?;
    put_lines(alloc, &mut outputs, prefix, wave)?;
    let lines = wave.lines();
    let text = report_text(alloc, lines.len(), count_logs(lines))?;
    let report = Report::new(alloc, text)?;
    Ok(Ready { outputs, report })
}

/// The certificate's file comes in first.
fn put_certificate<'a>(
    alloc: Global,
    outputs: &mut Vec<Output<'a>>,
    prefix: &str,
    wave: &Wave<'_>,
) -> Result<(), Memory>
    requires { outputs.old.items ≡ [] }
    ensures { OnOk result (map file_of outputs.new.items
        ≡ file (cert_name prefix.now) (cert_text (cert_of wave.now)) ∷ []) }
{
    let text = write_cert(alloc, wave, Form::Lines, &[])?;
    let name = cert_name(alloc, prefix)?;
    put_file(alloc, outputs, name, text)
}
