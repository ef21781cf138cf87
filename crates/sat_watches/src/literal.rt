//! Variables, numbered from 0, and literals: a variable and a bit.

ghost use Rattle.std.specs.Prelude.{◌≡◌, ◌≢◌, ◌%◌, ◌<◌, ◌^◌, not, pos};
ghost use Rattle.sat_watches.specs.Literal.{bit_of, in_formula, literal_of, no_literal, of_formula, variable_of};

/// The highest variable whose literals a formula can name, from 0.
const HIGHEST: u32 = 2_147_483_646;

/// A variable, numbered from 0.
#[derive(Clone, Copy, Debug)]
pub struct Variable {
    pub number: u32,
}

impl Variable {
    /// Its place in lists by variable.
    pub fn index(self) -> usize
        ensures { result ≡ self.number }
    {
        self.number as usize
    }
}

/// A variable and a bit in 4 bytes: twice the number, and 1 more where the bit is 1.
#[derive(Clone, Copy, Debug)]
pub struct Literal {
    code: u32,
}

impl Literal {
    /// The literal that a variable has a bit; a variable past 2^31 - 1 loses the highest bit of its number.
    pub fn new(variable: Variable, bit: bool) -> Literal
        ensures is { result ≡ literal_of (variable.number % 2 ^ 31) bit }
        ensures variable { variable.number < 2 ^ 31 → variable_of result ≡ variable.number }
        ensures bit { bit_of result ≡ bit }
    {
        let twice = variable.number.wrapping_mul(2);
        Literal {
            code: twice + u32::from(bit),
        }
    }

    /// A literal of a formula, whose variables are numbered from 1; 0, which is none, reads as that of -1.
    pub fn of(literal: i32) -> Literal
        ensures { result ≡ of_formula literal }
    {
        let variable = Variable {
            number: literal.unsigned_abs().saturating_sub(1),
        };
        Literal::new(variable, literal > 0)
    }

    /// Any literal, where there is none.
    pub fn none() -> Literal
        ensures { result ≡ no_literal }
    {
        Literal { code: 0 }
    }

    /// Its variable.
    pub fn variable(self) -> Variable
        ensures { result.number ≡ variable_of self }
    {
        Variable {
            number: self.code / 2,
        }
    }

    /// Its bit.
    pub fn bit(self) -> bool
        ensures { result ≡ bit_of self }
    {
        self.code % 2 == 1
    }

    /// The variable with the other bit.
    pub fn turned(self) -> Literal
        ensures variable { variable_of result ≡ variable_of self }
        ensures bit { bit_of result ≡ not (bit_of self) }
    {
        Literal {
            code: self.code ^ 1,
        }
    }

    /// Its place in lists by literal.
    pub fn index(self) -> usize
        ensures { result ≡ self.code }
    {
        self.code as usize
    }

    /// As a literal of a formula, whose variables are numbered from 1; past 2^31 - 1 as that of the highest one.
    pub fn number(self) -> i32
        ensures is { result ≡ in_formula self }
        ensures some { result ≢ pos 0 }
    {
        let variable = (self.variable().number.min(HIGHEST) + 1) as i32;
        if self.bit() { variable } else { -variable }
    }
}
