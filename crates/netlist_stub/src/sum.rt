//! Constant expressions, token by token.

ghost use Rattle.std.specs.Prelude.{◌≡◌, ◌+◌, ◌*◌};
ghost use Rattle.netlist_trim.specs.Shown.{seen};
ghost use Rattle.netlist_stub.specs.Sums as spec;

use base_lists::Memory;
use netlist_stub_read::is;
use netlist_tokens::Kind;
use netlist_trim::{Numbers, Spelled};
use std::alloc::Global;
use std::marker::Model;

/// Numbers that are worked out are below this.
const LIMIT: usize = 2_147_483_648;

/// What stands within one pair of parentheses, so far.
#[derive(Clone, Copy)]
pub struct Frame {
    /// The terms before the last.
    pub total: usize,
    /// Whether the last one is subtracted.
    pub minus: bool,
    /// The product of its factors.
    pub factor: usize,
    /// Whether a factor must follow.
    pub awaits: bool,
}

/// An expression so far. Contracts see its parentheses, the innermost first.
#[derive(Drop)]
pub struct Sum {
    frames: Vec<Frame>,
}

impl Model for Sum {
    ghost use Rattle.std.specs.Prelude.{List, reverse};
    ghost use Rattle.netlist_stub.specs.declared.sum.Frame.{Frame};

    ghost Value = { List Frame };

    ghost view = { λ s. reverse s.frames.items };
}

impl Sum {
    ghost use Rattle.std.specs.Prelude.{◌≡◌, ◌∷◌, [], OnOk, Some};
    ghost use Rattle.netlist_trim.specs.Shown.{seen};
    ghost use Rattle.netlist_stub.specs.Sums.{Pops, begun, closed, nested, put_back, value_of};
    ghost use Rattle.netlist_stub.specs.Sums.{with_operand, with_sign, with_times, with_token};

    /// Nothing that is worked out.
    pub fn new(alloc: Global) -> Sum
        ensures { result ≡ [] }
    {
        Sum {
            frames: Vec::new(alloc),
        }
    }

    /// Begins anew.
    pub fn begin(&mut self) -> Result<(), Memory>
        ensures { OnOk result (self.new ≡ begun ∷ []) }
    {
        self.clear();
        self.push(Frame::begun())
    }

    /// Nothing is worked out any more.
    pub fn clear(&mut self)
        ensures { self.new ≡ [] }
    {
        self.frames.clear();
    }

    /// What is worked out.
    #[tactic(auto, using(crate::proofs::Stack::one_value, crate::proofs::Stack::no_value))]
    pub fn value(&self) -> Option<usize>
        ensures { result ≡ value_of self.now }
    {
        match self.frames.as_slice() {
            [frame] => frame.sum_of(),
            _ => None,
        }
    }

    /// A token more, with parameters that have these values.
    pub fn take(&mut self, values: &Numbers<'_>, token: Spelled<'_>) -> Result<(), Memory>
        ensures { OnOk result (self.new ≡ with_token values.now (seen token.entry) self.old) }
    {
        if is(token, b"+") {
            self.sign(false)
        } else if is(token, b"-") {
            self.sign(true)
        } else if is(token, b"*") {
            self.times()
        } else if is(token, b"(") {
            self.nest()
        } else if is(token, b")") {
            self.close()
        } else {
            self.operand(operand_of(values, token))
        }
    }

    fn operand(&mut self, operand: Option<usize>) -> Result<(), Memory>
        ensures { OnOk result (self.new ≡ with_operand operand self.old) }
    {
        match operand {
            Some(number) => self.multiply(number),
            None => {
                self.clear();
                Ok(())
            }
        }
    }

    fn multiply(&mut self, number: usize) -> Result<(), Memory>
        ensures { OnOk result (self.new ≡ with_operand (Some number) self.old) }
    {
        match self.pop() {
            Some(frame) => self.put_back(frame.multiplied(number)),
            None => Ok(()),
        }
    }

    fn times(&mut self) -> Result<(), Memory>
        ensures { OnOk result (self.new ≡ with_times self.old) }
    {
        match self.pop() {
            Some(frame) => self.put_back(frame.times()),
            None => Ok(()),
        }
    }

    fn sign(&mut self, minus: bool) -> Result<(), Memory>
        ensures { OnOk result (self.new ≡ with_sign minus self.old) }
    {
        match self.pop() {
            Some(frame) => self.put_back(frame.added(minus)),
            None => Ok(()),
        }
    }

    fn nest(&mut self) -> Result<(), Memory>
        ensures { OnOk result (self.new ≡ nested self.old) }
    {
        match self.pop() {
            Some(frame) if frame.awaits => {
                self.push(frame)?;
                self.push(Frame::begun())
            }
            Some(_) => {
                self.clear();
                Ok(())
            }
            None => Ok(()),
        }
    }

    fn close(&mut self) -> Result<(), Memory>
        ensures { OnOk result (self.new ≡ closed self.old) }
    {
        match self.pop() {
            Some(frame) => self.operand(frame.sum_of()),
            None => Ok(()),
        }
    }

    fn put_back(&mut self, frame: Option<Frame>) -> Result<(), Memory>
        ensures { OnOk result (self.new ≡ put_back frame self.old) }
    {
        match frame {
            Some(frame) => self.push(frame),
            None => {
                self.clear();
                Ok(())
            }
        }
    }

    #[tactic(auto, using(crate::proofs::Stack::pushed))]
    fn push(&mut self, frame: Frame) -> Result<(), Memory>
        ensures { OnOk result (self.new ≡ frame ∷ self.old) }
    {
        self.frames.push(frame)?;
        Ok(())
    }

    #[tactic(auto, using(crate::proofs::Stack::pushed))]
    fn pop(&mut self) -> Option<Frame>
        ensures { Pops self.old result self.new }
    {
        self.frames.pop()
    }
}

impl Frame {
    ghost use Rattle.std.specs.Prelude.{◌≡◌};
    ghost use Rattle.netlist_stub.specs.Sums as spec;

    fn begun() -> Frame
        ensures { result ≡ spec.begun }
    {
        Frame {
            total: 0,
            minus: false,
            factor: 1,
            awaits: true,
        }
    }

    fn total_of(self) -> Option<usize>
        ensures { result ≡ spec.total_of self }
    {
        if self.minus {
            self.total.checked_sub(self.factor)
        } else {
            sum_within(self.total, self.factor)
        }
    }

    fn sum_of(self) -> Option<usize>
        ensures { result ≡ spec.sum_of self }
    {
        if self.awaits { None } else { self.total_of() }
    }

    fn multiplied(self, number: usize) -> Option<Frame>
        ensures { result ≡ spec.multiplied self number }
    {
        if self.awaits {
            self.with_factor(product_within(self.factor, number))
        } else {
            None
        }
    }

    fn with_factor(self, product: Option<usize>) -> Option<Frame>
        ensures { result ≡ spec.with_factor self product }
    {
        match product {
            Some(product) => Some(Frame {
                total: self.total,
                minus: self.minus,
                factor: product,
                awaits: false,
            }),
            None => None,
        }
    }

    fn times(self) -> Option<Frame>
        ensures { result ≡ spec.times self }
    {
        if self.awaits {
            None
        } else {
            Some(Frame {
                total: self.total,
                minus: self.minus,
                factor: self.factor,
                awaits: true,
            })
        }
    }

    fn added(self, minus: bool) -> Option<Frame>
        ensures { result ≡ spec.added minus self }
    {
        next_term(minus, self.sum_of())
    }
}

fn next_term(minus: bool, total: Option<usize>) -> Option<Frame>
    ensures { result ≡ spec.next_term minus total }
{
    match total {
        Some(total) => Some(Frame {
            total,
            minus,
            factor: 1,
            awaits: true,
        }),
        None => None,
    }
}

fn sum_within(a: usize, b: usize) -> Option<usize>
    ensures { result ≡ spec.within (a + b) }
{
    match a.checked_add(b) {
        Some(sum) if sum < LIMIT => Some(sum),
        _ => None,
    }
}

fn product_within(a: usize, b: usize) -> Option<usize>
    ensures { result ≡ spec.within (a * b) }
{
    match a.checked_mul(b) {
        Some(product) if product < LIMIT => Some(product),
        _ => None,
    }
}

/// What a number or a parameter's name stands for.
fn operand_of(values: &Numbers<'_>, token: Spelled<'_>) -> Option<usize>
    ensures { result ≡ spec.operand_of values.now (seen token.entry) }
{
    match token.token.kind {
        Kind::Name => values.find(token.name()),
        Kind::Escaped => values.find(token.name()),
        Kind::Number => number_of(token.bytes),
        Kind::Text => None,
        Kind::Mark => None,
    }
}

/// The number of digits.
fn number_of(digits: &[u8]) -> Option<usize>
    ensures { result ≡ spec.number_from 0 digits.now }
{
    let mut rest = digits;
    let mut number: usize = 0;
    'digits: while let [digit, after @ ..] = rest {
        number = with_digit(number, *digit)?;
        rest = after;
    }
    Some(number)
}

/// A number with a digit more.
fn with_digit(number: usize, digit: u8) -> Option<usize>
    ensures { result ≡ spec.with_digit number digit }
{
    if digit < b'0' || b'9' < digit {
        return None;
    }
    sum_within(number.checked_mul(10)?, (digit - b'0') as usize)
}
