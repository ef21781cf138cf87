//! Codes of tables, and what a table says as implications.

ghost use Rattle.std.specs.Prelude.{IfOk, OnOk};
ghost use Rattle.decide_choices.specs.Choices.{HasTable};
ghost use Rattle.decide_guess.specs.Codes.{AddsChoices, AreImplications};

use base_lists::Memory;
use decide_choices::minimal_choices;
use decide_justify::Implication;
use design_cell::Value;
use std::alloc::Global;

/// A number that equal tables share, and others hardly ever.
pub(crate) fn code_of(values: &[Value]) -> u64 {
    let mut code = mixed(values.len() as u64);
    'values: for value in values {
        code = mixed(code ^ number_of(*value));
    }
    code
}

fn number_of(value: Value) -> u64 {
    match value {
        Value::Zero => 0,
        Value::One => 1,
        Value::X => 2,
        Value::Z => 3,
    }
}

/// A number mixed well (the finisher of splitmix64).
fn mixed(number: u64) -> u64 {
    let a = number.wrapping_add(0x9e37_79b9_7f4a_7c15);
    let b = (a ^ (a >> 30)).wrapping_mul(0xbf58_476d_1ce4_e5b9);
    let c = (b ^ (b >> 27)).wrapping_mul(0x94d0_49bb_1331_11eb);
    c ^ (c >> 31)
}

/// The minimal choices of a table, and the bits that they force. Takes 6 bytes for each, and what these take to be
/// found.
pub(crate) fn implications_of(alloc: Global, values: &[Value]) -> Result<Vec<Implication>, Memory>
    requires { HasTable values.now }
    ensures { IfOk result (λ implications. AreImplications values.now implications.items) }
{
    let mut implications = Vec::new(alloc);
    add_implications(alloc, &mut implications, values, false)?;
    add_implications(alloc, &mut implications, values, true)?;
    Ok(implications)
}

/// Those that force one bit come in.
fn add_implications(
    alloc: Global,
    implications: &mut Vec<Implication>,
    values: &[Value],
    forced: bool,
) -> Result<(), Memory>
    requires { HasTable values.now }
    ensures { OnOk result (AddsChoices values.now forced implications.old.items implications.new.items) }
{
    let choices = minimal_choices(alloc, values, forced)?;
    'choices: for choice in &choices {
        implications.push(Implication {
            care: choice.care,
            bits: choice.bits,
            forced,
        })?;
    }
    Ok(())
}
