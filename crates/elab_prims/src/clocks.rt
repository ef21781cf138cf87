//! Live pins, and the clock pins of instances, worked out once for a primitive and its dead pins.

ghost use Rattle.std.specs.Prelude.{◌≡◌, ◌≤◌, ◌^◌, ◌<◌, true, length, if◌then◌else◌};
ghost use Rattle.design_circuit.specs.Fits.{dead_pins as spec_dead_pins, is_dead as spec_is_dead};
ghost use Rattle.elab_prims.specs.Pins as spec;

use design_cell::Udp;
use design_circuit::Pin;
use indexmap::IndexMap;
use std::alloc::{AllocError, Global};
use std::marker::Model;

/// How many pins are live. A constant is live.
pub fn live_count(pins: &[Pin]) -> usize
    ensures { result ≡ spec.live_count pins.now }
{
    pins.iter().filter(|pin| !is_dead(**pin)).count()
}

/// The clock pins of the primitives that were asked for, by position and dead pins.
#[derive(Drop)]
pub struct Clocks<'u> {
    udps: &'u [Udp],
    masks: IndexMap<(u32, u16), u16>,
}

impl<'u> Model for Clocks<'u> {
    ghost use Rattle.std.specs.Prelude.{List};
    ghost use Rattle.design_cell.specs.Table.{Table};
    ghost use Rattle.elab_prims.specs.Pins.{AreMasks};

    ghost Value = { List Table };

    ghost view = { λ c. c.udps.now };

    ghost invariant = { λ c. AreMasks c.udps.now c.masks.entries };
}

impl<'u> Clocks<'u> {
    ghost use Rattle.std.specs.Prelude.{◌≡◌, ◌≤◌, ◌<◌, true, length, IfOk};
    ghost use Rattle.design_circuit.specs.Job.{primitive_of};
    ghost use Rattle.elab_prims.specs.Pins.{clocks_of, AreClocks};

    /// None so far, for instances of these primitives.
    pub fn new(alloc: Global, udps: &'u [Udp]) -> Clocks<'u>
        ensures { result ≡ udps.now }
    {
        Clocks {
            udps,
            masks: IndexMap::new(alloc),
        }
    }

    /// The clock pins of an instance of the primitive at a position. Bit i stands for pin i. They are worked out where
    /// these dead pins come for the first time, by `Udp::is_clock` for each pin; then a place in a map is taken.
    pub fn clocks(&mut self, number: u32, pins: &[Pin]) -> Result<u16, AllocError>
        requires within { number < length self.old }
        requires kind { (primitive_of self.old number).sequential ≡ true }
        requires inputs { (primitive_of self.old number).inputs ≡ length pins.now }
        requires few { length pins.now ≤ 9 }
        ensures clocks { IfOk result (λ clocks. clocks ≡ clocks_of (primitive_of self.old number) pins.now) }
        ensures fit { IfOk result (λ clocks. AreClocks (primitive_of self.old number) pins.now clocks) }
        ensures same { self.new ≡ self.old }
    {
        let dead = dead_pins(pins);
        if let Some(clocks) = self.masks.get(&(number, dead)) {
            return Ok(*clocks);
        }
        let clocks = clock_bits(&self.udps[number as usize], dead, pins.len());
        self.masks.insert((number, dead), clocks)?;
        Ok(clocks)
    }
}

fn is_dead(pin: Pin) -> bool
    ensures { result ≡ spec_is_dead pin }
{
    matches!(pin, Pin::Dead)
}

/// The dead pins. Bit i stands for pin i.
fn dead_pins(pins: &[Pin]) -> u16
    requires { length pins.now ≤ 9 }
    ensures { result ≡ spec_dead_pins pins.now }
{
    let mut dead = 0;
    'pins: for (place, pin) in pins.iter().enumerate() {
        dead += bit_if(is_dead(*pin), place);
    }
    dead
}

/// The clock pins among the first, with these dead pins. Bit i stands for pin i.
fn clock_bits(udp: &Udp, dead: u16, count: usize) -> u16
    requires kind { udp.now.sequential ≡ true }
    requires count { count ≤ udp.now.inputs }
    requires few { count ≤ 9 }
    ensures { result ≡ spec.clock_bits udp.now dead count }
{
    let mut clocks = 0;
    'pins: for pin in 0..count {
        clocks += bit_if(udp.is_clock(dead, pin), pin);
    }
    clocks
}

/// The bit at a place, or none.
fn bit_if(is: bool, place: usize) -> u16
    requires { place < 16 }
    ensures { result ≡ (if is then 2 ^ place else 0) }
{
    if is { 1 << place } else { 0 }
}
