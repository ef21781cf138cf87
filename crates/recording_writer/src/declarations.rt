//! The scopes and variables of the text.

ghost use Rattle.std.specs.Prelude.{◌≡◌, ◌≤◌, ◌<◌, [], ◌++◌, All, List, OnOk, drop, length};
ghost use Rattle.std.specs.List.{flat_map};
ghost use Rattle.design_circuit.specs.Design.{name_in};
ghost use Rattle.recording_binding.specs.Binding.{FitsBound};
ghost use Rattle.recording_writer.specs.Declarations as spec;

use crate::code::put_code;
use crate::puts::put_section;
use base_lists::{Memory, put, put_number};
use design_circuit::{Bytes, Design, NamePart};
use recording_binding::Bound;

/// Puts the variables, each behind the way to its scope, and leaves every scope.
pub fn put_declarations(text: &mut Vec<u8>, design: &Design, bound: &[Bound]) -> Result<(), Memory>
    requires { All (FitsBound design.now) bound.now }
    ensures { OnOk result (text.new.items ≡ text.old.items ++ spec.declaration_lines design.now [] 0 bound.now) }
{
    let mut present: &[Bytes] = &[];
    'variables: for (number, variable) in bound.iter().enumerate() {
        put_way(text, present, variable.path.as_slice())?;
        put_variable(text, design, number, variable)?;
        present = variable.path.as_slice();
    }
    put_upscopes(text, present)
}

/// Leaves scopes up to the common one of two, and enters those of the second.
fn put_way(text: &mut Vec<u8>, from: &[Bytes], to: &[Bytes]) -> Result<(), Memory>
    ensures { OnOk result (text.new.items ≡ text.old.items ++ spec.way from.now to.now) }
{
    let shared = common(from, to);
    put_upscopes(text, &from[shared..])?;
    put_scopes(text, &to[shared..])
}

/// How many names two paths begin with in common.
fn common(from: &[Bytes], to: &[Bytes]) -> usize
    ensures is { result ≡ spec.common from.now to.now }
    ensures within_from { result ≤ length from.now }
    ensures within_to { result ≤ length to.now }
{
    let mut count = 0;
    'names: while count < from.len() && count < to.len() {
        if from[count].as_slice() != to[count].as_slice() {
            break;
        }
        count += 1;
    }
    count
}

fn put_scopes(text: &mut Vec<u8>, names: &[Bytes]) -> Result<(), Memory>
    ensures { OnOk result (text.new.items ≡ text.old.items ++ flat_map spec.scope_line names.now) }
{
    'names: for name in names {
        put_section(text, b"$scope module ", name.as_slice())?;
    }
    Ok(())
}

fn put_upscopes(text: &mut Vec<u8>, names: &[Bytes]) -> Result<(), Memory>
    ensures { OnOk result (text.new.items ≡ text.old.items ++ flat_map spec.upscope_line names.now) }
{
    'names: for _ in names {
        put(text, b"$upscope $end\n")?;
    }
    Ok(())
}

// variable = "$var wire" width code name [ range ] "$end"
fn put_variable(
    text: &mut Vec<u8>,
    design: &Design,
    number: usize,
    variable: &Bound,
) -> Result<(), Memory>
    requires { FitsBound design.now variable.now }
    ensures { OnOk result (text.new.items ≡ text.old.items ++ spec.variable_line design.now number variable.now) }
{
    let bits = variable.bits.as_slice();
    put(text, b"$var wire ")?;
    put_number(text, bits.len() as u64)?;
    put(text, b" ")?;
    put_code(text, number)?;
    put(text, b" ")?;
    put_own_name(text, parts_of(design, bits[0]))?;
    put_range(text, variable.range)?;
    put(text, b" $end\n")?;
    Ok(())
}

/// The parts of a net's name.
fn parts_of(design: &Design, net: u32) -> &[NamePart]
    requires { net < length design.now.nets }
    ensures { result.now ≡ (name_in design.now net).parts }
{
    design.nets.as_slice()[net as usize].path.parts.as_slice()
}

/// Puts the last part of a name, an escaped one with its backslash.
fn put_own_name(text: &mut Vec<u8>, parts: &[NamePart]) -> Result<(), Memory>
    ensures { OnOk result (text.new.items ≡ text.old.items ++ spec.own_name parts.now) }
{
    match parts {
        [] => Ok(()),
        [.., part] => put_part(text, part),
    }
}

fn put_part(text: &mut Vec<u8>, part: &NamePart) -> Result<(), Memory>
    ensures { OnOk result (text.new.items ≡ text.old.items ++ spec.recorded_part part.now) }
{
    if part.escaped {
        put(text, b"\\")?;
    }
    put(text, part.text.as_slice())
}

// range = " [" index "]" | " [" index ":" index "]"
fn put_range(text: &mut Vec<u8>, range: Option<(u32, u32)>) -> Result<(), Memory>
    ensures { OnOk result (text.new.items ≡ text.old.items ++ spec.range_text range) }
{
    let Some((first, last)) = range else {
        return Ok(());
    };
    put(text, b" [")?;
    put_number(text, first as u64)?;
    if first != last {
        put(text, b":")?;
        put_number(text, last as u64)?;
    }
    put(text, b"]")
}
