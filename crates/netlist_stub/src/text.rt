//! The text of a stub.

ghost use Rattle.std.specs.Prelude.{◌≡◌, ◌++◌, [], OnOk, Some, map};
ghost use Rattle.netlist_trim.specs.Shown.{seen};
ghost use Rattle.netlist_stub.specs.Stubs as spec;
ghost use Rattle.netlist_stub.specs.declared.heading.Width.TheVariants.{Bounds};

use crate::heading::{Declared, Direction, Width};
use crate::listed::Listed;
use base_lists::{Memory, put, put_number};
use netlist_tokens::Kind;
use netlist_trim::Spelled;

/// Puts down a module's name, its ports, their directions and ranges.
pub fn put_stub(out: &mut Vec<u8>, name: Spelled<'_>, listed: &Listed<'_>) -> Result<(), Memory>
    ensures { OnOk result (out.new.items ≡ out.old.items ++ spec.stub_text (seen name.entry) listed.now) }
{
    put(out, b"module ")?;
    put_name(out, name)?;
    put(out, b" (")?;
    put_names(out, listed.names().as_slice())?;
    put(out, b");\n")?;
    put_lines(out, listed, listed.names().as_slice())?;
    put(out, b"endmodule")
}

/// Puts down names with a comma between.
fn put_names(out: &mut Vec<u8>, names: &[Spelled<'_>]) -> Result<(), Memory>
    ensures { OnOk result (out.new.items ≡ out.old.items ++ spec.names_text [] (map seen names.now)) }
{
    let mut separator: &[u8] = b"";
    let mut rest = names;
    'names: while let [name, after @ ..] = rest {
        put(out, separator)?;
        put_name(out, *name)?;
        separator = b", ";
        rest = after;
    }
    Ok(())
}

/// Puts down the directions and the ranges of names.
fn put_lines(out: &mut Vec<u8>, listed: &Listed<'_>, names: &[Spelled<'_>]) -> Result<(), Memory>
    ensures { OnOk result (out.new.items ≡ out.old.items ++ spec.lines_text listed.now (map seen names.now)) }
{
    let mut rest = names;
    'names: while let [name, after @ ..] = rest {
        put_line(out, *name, listed.declaration_of(*name))?;
        rest = after;
    }
    Ok(())
}

fn put_line(out: &mut Vec<u8>, name: Spelled<'_>, declared: Option<Declared>) -> Result<(), Memory>
    ensures { OnOk result (out.new.items ≡ out.old.items ++ spec.line_text (seen name.entry) declared) }
{
    match declared {
        Some(declared) => put_declared(out, name, declared),
        None => Ok(()),
    }
}

fn put_declared(out: &mut Vec<u8>, name: Spelled<'_>, declared: Declared) -> Result<(), Memory>
    ensures { OnOk result (out.new.items ≡ out.old.items ++ spec.line_text (seen name.entry) (Some declared)) }
{
    put(out, direction_text(declared.direction))?;
    put_width(out, declared.width)?;
    put_name(out, name)?;
    put(out, b";\n")
}

fn direction_text(direction: Direction) -> &'static [u8]
    ensures { result.now ≡ spec.direction_text direction }
{
    match direction {
        Direction::Input => b"  input ",
        Direction::Output => b"  output ",
        Direction::Inout => b"  input ",
    }
}

fn put_width(out: &mut Vec<u8>, width: Width) -> Result<(), Memory>
    ensures { OnOk result (out.new.items ≡ out.old.items ++ spec.width_text width) }
{
    match width {
        Width::Scalar => Ok(()),
        Width::Unknown(_) => Ok(()),
        Width::Bounds(left, right) => put_bounds(out, left, right),
    }
}

fn put_bounds(out: &mut Vec<u8>, left: usize, right: usize) -> Result<(), Memory>
    ensures { OnOk result (out.new.items ≡ out.old.items ++ spec.width_text (Bounds left right)) }
{
    put(out, b"[")?;
    put_number(out, left as u64)?;
    put(out, b":")?;
    put_number(out, right as u64)?;
    put(out, b"] ")
}

/// Puts down a name, an escaped one with white space after it.
fn put_name(out: &mut Vec<u8>, name: Spelled<'_>) -> Result<(), Memory>
    ensures { OnOk result (out.new.items ≡ out.old.items ++ spec.spelled (seen name.entry)) }
{
    put(out, name.bytes)?;
    put(out, gap(name.token.kind))
}

fn gap(kind: Kind) -> &'static [u8]
    ensures { result.now ≡ spec.gap kind }
{
    match kind {
        Kind::Name => b"",
        Kind::Escaped => b" ",
        Kind::Number => b"",
        Kind::Text => b"",
        Kind::Mark => b"",
    }
}
