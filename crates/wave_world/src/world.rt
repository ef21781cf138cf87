//! The whole world of a filling.

ghost use Rattle.std.specs.Prelude.{◌≡◌, ◌≤◌, ◌^◌, IfOk, length};
ghost use Rattle.design_circuit.specs.Filling.{IsFilling};
ghost use Rattle.wave_proved.specs.Contents.{job};
ghost use Rattle.wave_world.specs.View.{GivesBits, HasPlace, HasWritten, bit_in, filled, positions_in};

use crate::bits::bits_of;
use base_lists::Memory;
use design_circuit::{Filling, Order, Place, width_of};
use std::alloc::Global;
use std::marker::Model;
use wave_proved::Wave;

/// The bit of each place that was written in a wave, in the world of a filling.
#[derive(Drop)]
pub struct World {
    positions: Vec<u32>,
    bits: Vec<bool>,
}

impl Model for World {
    ghost use Rattle.wave_world.specs.View.{WorldView};

    ghost Value = { WorldView };

    ghost view = { λ world. record { positions = world.positions.items; bits = world.bits.items } };
}

/// The world of a filling over the written places. Takes a byte for each of them, and four for each net.
pub fn fill(alloc: Global, wave: &Wave<'_>, filling: &Filling) -> Result<World, Memory>
    requires { IsFilling (job wave.now) filling.now }
    ensures world { IfOk result (λ world. world ≡ filled wave.now filling.now) }
    ensures places { IfOk result (λ world. HasWritten wave.now world) }
    ensures bits { IfOk result (λ world. GivesBits wave.now filling.now world) }
{
    let circuit = wave.circuit();
    let positions = positions_of(alloc, circuit.order, width_of(&circuit))?;
    let bits = bits_of(alloc, wave, filling.as_slice())?;
    Ok(World { positions, bits })
}

impl World {
    /// The bit of a place.
    pub fn value(&self, place: Place) -> bool
        requires { HasPlace self.now place }
        ensures { result ≡ bit_in self.now place }
    {
        let position = self.positions[place.net as usize] as usize;
        self.bits[place.step as usize * self.positions.len() + position]
    }
}

#[tactic(auto, using(crate::proofs::Filled::positions_more))]
fn positions_of(alloc: Global, order: &Order, width: usize) -> Result<Vec<u32>, Memory>
    requires width { width ≡ length order.now }
    requires few { width ≤ 2 ^ 20 }
    ensures { IfOk result (λ positions. positions.items ≡ positions_in order.now) }
{
    let mut positions = Vec::with_capacity(alloc, width)?;
    'nets: for net in 0..width {
        positions.push(order.position(net as u32))?;
    }
    Ok(positions)
}
