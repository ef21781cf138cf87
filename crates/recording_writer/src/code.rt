//! Codes of variables.

ghost use Rattle.std.specs.Prelude.{◌≡◌, ◌++◌, OnOk};
ghost use Rattle.recording_writer.specs.Code.{code_of, digits_of};

use base_lists::Memory;

/// Puts the code of a variable: its number in base 94, the least digit first.
#[tactic(auto, unfolding(crate::specs::Code::code_of))]
pub fn put_code(text: &mut Vec<u8>, variable: usize) -> Result<(), Memory>
    ensures { OnOk result (text.new.items ≡ text.old.items ++ code_of variable) }
{
    put_digits(text, variable, 10)
}

#[tactic(auto, unfolding(crate::specs::Code::digits_of))]
fn put_digits(text: &mut Vec<u8>, number: usize, most: usize) -> Result<(), Memory>
    ensures { OnOk result (text.new.items ≡ text.old.items ++ digits_of most number) }
{
    if most == 0 {
        return Ok(());
    }
    text.push((33 + number % 94) as u8)?;
    if number < 94 {
        return Ok(());
    }
    put_digits(text, number / 94, most - 1)?;
    Ok(())
}
