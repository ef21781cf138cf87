//! What a module's parts declare.

ghost use Rattle.std.specs.Prelude.{◌≡◌, bytes_eq, map};
ghost use Rattle.std.specs.List.{list_any};
ghost use Rattle.netlist_trim.specs.Shown.{seen};
ghost use Rattle.netlist_stub.specs.Known as spec;
ghost use Rattle.netlist_stub_read.specs.Parts.{seen_part};
ghost use Rattle.netlist_stub.specs.Stubs.{Knows};

use crate::fault::{StubErr, StubFault};
use crate::heading::{Direction, Heading, Width};
use crate::listed::Listed;
use crate::sum::Sum;
use base_lists::Memory;
use netlist_stub_read::{Part, Role};
use netlist_trim::{Numbers, Spelled};
use std::alloc::Global;
use std::marker::Model;

/// What is declared so far.
#[derive(Drop)]
pub struct Known<'t> {
    heading: Heading,
    parameter: &'t [u8],
    expression: Sum,
    values: Numbers<'t>,
    listed: Listed<'t>,
}

impl<'t> Model for Known<'t> {
    ghost use Rattle.netlist_stub.specs.Known as spec;

    ghost Value = { spec.Known };

    ghost view = { λ k. record {
      heading = k.heading;
      parameter = k.parameter.now;
      expression = k.expression;
      values = k.values;
      listed = k.listed;
    } };
}

/// What parts declare, or the first fault.
pub fn known_of<'t>(
    alloc: Global,
    supplies: &[&[u8]],
    parts: &[Part<'t>],
) -> Result<Known<'t>, StubErr>
    ensures { Knows (spec.known_of (spec.texts_of supplies.now) spec.nothing (map seen_part parts.now)) result }
{
    let mut known = Known::nothing(alloc);
    let mut rest = parts;
    'parts: while let [part, after @ ..] = rest {
        if let Some(fault) = fault_of(supplies, known.heading(), *part) {
            return Err(StubErr::Refused(fault));
        }
        known.more(*part)?;
        rest = after;
    }
    Ok(known)
}

impl<'t> Known<'t> {
    ghost use Rattle.std.specs.Prelude.{◌≡◌, OnOk, Some};
    ghost use Rattle.netlist_trim.specs.Shown.{seen};
    ghost use Rattle.netlist_stub.specs.Known as spec;
    ghost use Rattle.netlist_stub_read.specs.declared.role.Role.TheVariants as role;

    fn nothing(alloc: Global) -> Known<'t>
        ensures { result ≡ spec.nothing }
    {
        Known {
            heading: Heading::blank(),
            parameter: b"",
            expression: Sum::new(alloc),
            values: Numbers::new(alloc),
            listed: Listed::new(alloc),
        }
    }

    fn heading(&self) -> Heading
        ensures { result ≡ self.now.heading }
    {
        self.heading
    }

    /// The ports.
    pub fn listed(&self) -> &Listed<'t>
        ensures { result.now ≡ self.now.listed }
    {
        &self.listed
    }

    /// A part more.
    fn more(&mut self, part: Part<'t>) -> Result<(), Memory>
        ensures { OnOk result (self.new ≡ spec.more part.entry.role (seen part.entry.token) self.old) }
    {
        match part.role {
            Role::Unexpected => Ok(()),
            Role::Direction => self.direct(part.token),
            Role::Port => self.port(part.token),
            Role::Declared => self.named(part.token),
            Role::Open => self.range(part.token),
            Role::Bound => self.term(part.token),
            Role::Middle => self.middle(),
            Role::Close => self.close(),
            Role::Keyword => self.typed(false),
            Role::Typed => self.typed(true),
            Role::Parameter => self.name(part.token),
            Role::Begin => self.begin(),
            Role::Term => self.term(part.token),
            Role::End => self.value(),
        }
    }

    fn direct(&mut self, token: Spelled<'t>) -> Result<(), Memory>
        ensures { OnOk result (self.new ≡ spec.more role.Direction (seen token.entry) self.old) }
    {
        self.heading = self.heading.directed(token);
        Ok(())
    }

    fn port(&mut self, token: Spelled<'t>) -> Result<(), Memory>
        ensures { OnOk result (self.new ≡ spec.more role.Port (seen token.entry) self.old) }
    {
        self.listed.name(token)?;
        self.named(token)
    }

    fn named(&mut self, token: Spelled<'t>) -> Result<(), Memory>
        ensures { OnOk result (self.new ≡ spec.named (seen token.entry) self.old) }
    {
        self.listed
            .declare(self.heading.direction, self.heading.width, token)
    }

    /// A range begins.
    fn range(&mut self, token: Spelled<'t>) -> Result<(), Memory>
        ensures { OnOk result (self.new ≡ spec.more role.Open (seen token.entry) self.old) }
    {
        self.heading = self.heading.ranged(token.start());
        self.expression.begin()
    }

    fn term(&mut self, token: Spelled<'t>) -> Result<(), Memory>
        ensures { OnOk result (self.new ≡ spec.more role.Term (seen token.entry) self.old) }
    {
        self.expression.take(&self.values, token)
    }

    /// A bound ends.
    fn middle(&mut self) -> Result<(), Memory>
        ensures { OnOk result (self.new ≡ spec.middle self.old) }
    {
        match self.left_bound() {
            Some(left) => self.go_on(left),
            None => {
                self.expression.clear();
                Ok(())
            }
        }
    }

    /// The left bound that ends here, if it is worked out.
    fn left_bound(&self) -> Option<usize>
        ensures { result ≡ spec.left_bound self.now }
    {
        if self.heading.left.is_some() {
            None
        } else {
            self.expression.value()
        }
    }

    /// Goes on after the left bound.
    fn go_on(&mut self, left: usize) -> Result<(), Memory>
        ensures { OnOk result (self.new ≡ spec.halved (Some left) self.old) }
    {
        self.heading = self.heading.with_left(left);
        self.expression.begin()
    }

    /// A range ends.
    fn close(&mut self) -> Result<(), Memory>
        ensures { OnOk result (self.new ≡ spec.close self.old) }
    {
        self.heading = self.heading.closed_by(self.expression.value());
        Ok(())
    }

    fn typed(&mut self, typed: bool) -> Result<(), Memory>
        ensures { OnOk result (self.new ≡ spec.typed typed self.old) }
    {
        self.heading = self.heading.with_typed(typed);
        Ok(())
    }

    fn name(&mut self, token: Spelled<'t>) -> Result<(), Memory>
        ensures { OnOk result (self.new ≡ spec.more role.Parameter (seen token.entry) self.old) }
    {
        self.parameter = token.name();
        Ok(())
    }

    /// A value begins.
    fn begin(&mut self) -> Result<(), Memory>
        ensures { OnOk result (self.new ≡ spec.begin self.old) }
    {
        self.expression.begin()
    }

    /// A value ends.
    fn value(&mut self) -> Result<(), Memory>
        ensures { OnOk result (self.new ≡ spec.value self.old) }
    {
        match self.expression.value() {
            Some(value) => self.put_value(value),
            None => Ok(()),
        }
    }

    /// A parameter has a value, if its type leaves it so.
    fn put_value(&mut self, value: usize) -> Result<(), Memory>
        ensures { OnOk result (self.new ≡ spec.with_value value self.old) }
    {
        if !self.heading.typed {
            self.values.add(self.parameter, value)?;
        }
        Ok(())
    }
}

/// Why a part is refused.
fn fault_of(supplies: &[&[u8]], heading: Heading, part: Part<'_>) -> Option<StubFault>
    ensures { result ≡ spec.fault_of (spec.texts_of supplies.now) part.entry.role heading (seen part.entry.token) }
{
    match part.role {
        Role::Unexpected => Some(StubFault::Unexpected {
            at: part.token.start(),
        }),
        Role::Port => named_fault(supplies, heading, part.token),
        Role::Declared => named_fault(supplies, heading, part.token),
        Role::Direction => None,
        Role::Open => None,
        Role::Bound => None,
        Role::Middle => None,
        Role::Close => None,
        Role::Keyword => None,
        Role::Typed => None,
        Role::Parameter => None,
        Role::Begin => None,
        Role::Term => None,
        Role::End => None,
    }
}

fn named_fault(supplies: &[&[u8]], heading: Heading, token: Spelled<'_>) -> Option<StubFault>
    ensures { result ≡ spec.named_fault (spec.texts_of supplies.now) heading (seen token.entry) }
{
    if is_open(supplies, heading.direction, token) {
        Some(StubFault::Supply { at: token.start() })
    } else {
        width_fault(heading.width)
    }
}

/// An inout that isn't a supply.
fn is_open(supplies: &[&[u8]], direction: Option<Direction>, token: Spelled<'_>) -> bool
    ensures { result ≡ spec.is_open (spec.texts_of supplies.now) direction (seen token.entry) }
{
    match direction {
        None => false,
        Some(Direction::Input) => false,
        Some(Direction::Output) => false,
        Some(Direction::Inout) => !is_among(supplies, token.name()),
    }
}

/// Whether a name is among some.
pub fn is_among(names: &[&[u8]], name: &[u8]) -> bool
    ensures { result ≡ spec.is_among (spec.texts_of names.now) name.now }
{
    has_name(names, name)
}

fn has_name(names: &[&[u8]], name: &[u8]) -> bool
    ensures { result ≡ list_any (λ other. bytes_eq other.now name.now) names.now }
{
    names.iter().any(|other| *other == name)
}

/// A range that isn't worked out.
fn width_fault(width: Width) -> Option<StubFault>
    ensures { result ≡ spec.width_fault width }
{
    match width {
        Width::Scalar => None,
        Width::Unknown(at) => Some(StubFault::Range { at }),
        Width::Bounds(_, _) => None,
    }
}
