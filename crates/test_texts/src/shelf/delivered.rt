//! Two outputs and a report, delivered.

ghost use Rattle.std.specs.Prelude.{◌≡◌, [], ◌∷◌, IfOk, codes, map};
ghost use Rattle.base_run.specs.Outputs.{AreApart, file_of};

use crate::shelf::answer::{Answer, quoted};
use base_lists::Memory;
use base_run::{Output, Report, Undelivered, deliver};
use base_shelf::{MemShelf, MemSink};
use std::alloc::{AllocError, Global};

/// What is delivered.
#[derive(Drop)]
struct Delivery {
    outputs: Vec<Output<'static>>,
    report: Report,
    ghost apart: { AreApart (map file_of outputs.items) },
}

/// Delivers the files `one` and `two` with the first texts, and prints the third.
pub fn deliver_two(
    alloc: Global,
    shelf: &mut MemShelf,
    sink: &mut MemSink,
    texts: &str,
) -> Result<Answer, AllocError> {
    let Ok(delivery) = delivery_of(alloc, texts) else {
        return Ok(Answer::Memory);
    };
    match deliver(shelf, sink, delivery.outputs.as_slice(), &delivery.report) {
        Ok(()) => Ok(Answer::Done),
        Err(Undelivered::Fault(line)) => quoted(alloc, &line[..line.len().saturating_sub(1)]),
        Err(Undelivered::Memory) => Ok(Answer::Memory),
    }
}

fn delivery_of(alloc: Global, texts: &str) -> Result<Delivery, Memory> {
    let (one, rest) = texts.split_once(' ').unwrap_or((texts, ""));
    let (two, report) = rest.split_once(' ').unwrap_or((rest, ""));
    let first = Output::new(alloc, "one", bytes_of(alloc, one)?)?;
    let second = Output::new(alloc, "two", bytes_of(alloc, two)?)?;
    let report = Report::new(alloc, bytes_of(alloc, report)?)?;
    let mut outputs = Vec::new(alloc);
    outputs.push(first)?;
    outputs.push(second)?;
    Ok(Delivery { outputs, report })
}

fn bytes_of(alloc: Global, text: &str) -> Result<Vec<u8>, AllocError> {
    let mut bytes = Vec::new(alloc);
    bytes.extend_from_slice(text.as_bytes())?;
    Ok(bytes)
}
