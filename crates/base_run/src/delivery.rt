//! Outputs written in their order, then put under their names, and a report printed after them.

ghost use Rattle.std.specs.Prelude.{◌≡◌, map, OnErr};
ghost use Rattle.std.specs.List.{All};
ghost use Rattle.base_run.specs.Outputs.{AreApart, Delivery, FilePut, FileWritten, FilesDelivered, FilesPut};
ghost use Rattle.base_run.specs.Outputs.{FilesWritten};
ghost use Rattle.base_run.specs.Outputs.{IsWhole, Printed, file_of};
ghost use Rattle.base_shelf.specs.Shelf.{Nothing};

use crate::output::{Output, Report};
use crate::undelivered::Undelivered;
use base_shelf::{IoErr, Shelf, Sink, WriteErr, print_all, write_all};

/// Writes all outputs in their order, then puts each under its name, then prints the report.
///
/// So a disk that fills while they are written changes no file.
pub fn deliver<'a, S: Shelf, O: Sink>(
    shelf: &mut S,
    out: &mut O,
    outputs: &'a [Output<'a>],
    report: &'a Report,
) -> Result<(), Undelivered<'a>>
    requires { AreApart (map file_of outputs.now) }
    ensures { Delivery S.told O.told (map file_of outputs.now) report.now.bytes.items
        (S.view shelf.old) (S.view shelf.new) (O.view out.old) (O.view out.new) result }
{
    deliver_outputs(shelf, outputs)?;
    print_report(out, report)
}

/// Writes all outputs, then puts each under its name. After an error those that aren't there are given up.
fn deliver_outputs<'a, S: Shelf>(
    shelf: &mut S,
    outputs: &'a [Output<'a>],
) -> Result<(), Undelivered<'a>>
    requires { AreApart (map file_of outputs.now) }
    ensures delivered { FilesDelivered S.told (map file_of outputs.now) (S.view shelf.old) (S.view shelf.new) result }
    ensures closed { OnErr result ((S.view shelf.new).hand ≡ Nothing) }
{
    match write_then_put(shelf, outputs) {
        Ok(()) => Ok(()),
        Err(undelivered) => {
            shelf.discard();
            Err(undelivered)
        }
    }
}

/// Writes all outputs, then puts each under its name.
fn write_then_put<'a, S: Shelf>(
    shelf: &mut S,
    outputs: &'a [Output<'a>],
) -> Result<(), Undelivered<'a>>
    requires { AreApart (map file_of outputs.now) }
    ensures { FilesDelivered S.told (map file_of outputs.now) (S.view shelf.old) (S.view shelf.new) result }
{
    write_outputs(shelf, outputs)?;
    put_outputs(shelf, outputs)
}

/// Writes the outputs in their order.
fn write_outputs<'a, S: Shelf>(
    shelf: &mut S,
    outputs: &'a [Output<'a>],
) -> Result<(), Undelivered<'a>>
    requires { AreApart (map file_of outputs.now) }
    ensures { FilesWritten S.told (map file_of outputs.now) (S.view shelf.old) (S.view shelf.new) result }
{
    'outputs: for output in outputs {
        write_output(shelf, output)?;
    }
    Ok(())
}

/// Writes an output.
fn write_output<'a, S: Shelf>(shelf: &mut S, output: &'a Output<'a>) -> Result<(), Undelivered<'a>>
    ensures { FileWritten S.told (file_of output.now) (S.view shelf.old) (S.view shelf.new) result }
{
    match write_all(shelf, output.name.as_str(), output.bytes.as_slice()) {
        Ok(()) => Ok(()),
        Err(WriteErr::Fault) => Err(Undelivered::Fault(output.line.as_slice())),
        Err(WriteErr::Memory) => Err(Undelivered::Memory),
    }
}

/// Puts the outputs, which were written, under their names in their order.
fn put_outputs<'a, S: Shelf>(
    shelf: &mut S,
    outputs: &'a [Output<'a>],
) -> Result<(), Undelivered<'a>>
    requires apart { AreApart (map file_of outputs.now) }
    requires written { All (IsWhole S.told (S.view shelf.old).written) (map file_of outputs.now) }
    ensures { FilesPut S.told (map file_of outputs.now) (S.view shelf.old) (S.view shelf.new) result }
{
    'outputs: for output in outputs {
        put_output(shelf, output)?;
    }
    Ok(())
}

/// Puts an output under its name.
fn put_output<'a, S: Shelf>(shelf: &mut S, output: &'a Output<'a>) -> Result<(), Undelivered<'a>>
    ensures { FilePut S.told (file_of output.now) (S.view shelf.old) (S.view shelf.new) result }
{
    match shelf.put_file(output.name.as_str()) {
        Ok(()) => Ok(()),
        Err(IoErr::Failed) => Err(Undelivered::Fault(output.line.as_slice())),
        Err(IoErr::Memory) => Err(Undelivered::Memory),
    }
}

/// Prints the report.
fn print_report<'a, O: Sink>(out: &mut O, report: &'a Report) -> Result<(), Undelivered<'a>>
    ensures { Printed O.told report.now.bytes.items (O.view out.old) (O.view out.new) result }
{
    match print_all(out, report.bytes.as_slice()) {
        Ok(()) => Ok(()),
        Err(WriteErr::Fault) => Err(Undelivered::Fault(report.line.as_slice())),
        Err(WriteErr::Memory) => Err(Undelivered::Memory),
    }
}
