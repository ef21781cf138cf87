//! Numbers by their words.

ghost use Rattle.std.specs.Prelude.{◌≡◌, ◌≤◌, ◌∷◌, [], IfOk, IfSome};
ghost use Rattle.std.specs.List.{list_all};
ghost use Rattle.base_scan.specs.Numbers.{at_most, number_from, number_within};
ghost use Rattle.base_scan.specs.Bytes.{are_digits, is_digit};
ghost use Rattle.sat_dimacs.specs.Machine.{in_range, literal_of, negated, on_ok, plain, variable_of};

use crate::fault::DimacsFault;
use base_scan::{are_digits, value_within};

// literal = [ "-" ] digits, and no "-0"
/// The literal that a word on this line writes, or 0, which ends a clause.
#[tactic(auto, unfolding(crate::specs::Machine::literal_of))]
pub fn literal_of(vars: u32, line: usize, word: &[u8]) -> Result<i32, DimacsFault>
    requires { vars ≤ 2147483647 }
    ensures { result ≡ literal_of vars line word.now }
{
    match word {
        [] => Err(DimacsFault::Syntax { line }),
        [b'-', digits @ ..] => negated(line, variable_of(vars, line, digits)),
        [_, ..] => plain(variable_of(vars, line, word)),
    }
}

/// The variable that digits write, or 0.
fn variable_of(vars: u32, line: usize, digits: &[u8]) -> Result<u32, DimacsFault>
    ensures is { result ≡ variable_of vars line digits.now }
    ensures small { IfOk result (λ n. n ≤ vars) }
{
    if are_digits(digits) {
        in_range(line, value_within(u64::from(vars), digits))
    } else {
        Err(DimacsFault::Syntax { line })
    }
}

fn in_range(line: usize, number: Option<u64>) -> Result<u32, DimacsFault>
    requires { IfSome number (λ n. n ≤ 4294967295) }
    ensures { result ≡ in_range line number }
{
    match number {
        None => Err(DimacsFault::Range { line }),
        Some(n) => Ok(n as u32),
    }
}

fn negated(line: usize, number: Result<u32, DimacsFault>) -> Result<i32, DimacsFault>
    requires { IfOk number (λ n. n ≤ 2147483647) }
    ensures { result ≡ on_ok number (negated line) }
{
    match number {
        Err(fault) => Err(fault),
        Ok(0) => Err(DimacsFault::Syntax { line }),
        Ok(n) => Ok(-(n as i32)),
    }
}

fn plain(number: Result<u32, DimacsFault>) -> Result<i32, DimacsFault>
    requires { IfOk number (λ n. n ≤ 2147483647) }
    ensures { result ≡ on_ok number plain }
{
    match number {
        Err(fault) => Err(fault),
        Ok(n) => Ok(n as i32),
    }
}
