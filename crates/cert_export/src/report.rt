//! What is printed of an export.

ghost use Rattle.std.specs.Prelude.{◌≡◌, IfOk, count_by};
ghost use Rattle.cert_export.specs.Export.{exported_line, has_log};

use crate::lines::log_of;
use base_lists::{Memory, put, put_number};
use law_model::Line;
use std::alloc::Global;

/// How many queries and how many logs there are.
pub fn report_text(alloc: Global, queries: usize, logs: usize) -> Result<Vec<u8>, Memory>
    ensures { IfOk result (λ text. text.items ≡ exported_line queries logs) }
{
    let mut text = Vec::new(alloc);
    put(&mut text, b"exported ")?;
    put_number(&mut text, queries as u64)?;
    put(&mut text, b" queries ")?;
    put_number(&mut text, logs as u64)?;
    put(&mut text, b" logs\n")?;
    Ok(text)
}

/// How many of the lines have a log.
pub fn count_logs(lines: &[Line]) -> usize
    ensures { result ≡ count_by has_log lines.now }
{
    lines.iter().filter(|line| has_log(line)).count()
}

fn has_log(line: &Line) -> bool
    ensures { result ≡ has_log line.now }
{
    log_of(&line.body).is_some()
}
