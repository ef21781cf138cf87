//! The order of the nets within a step.

ghost use Rattle.std.specs.Prelude.{◌≡◌, ◌<◌, ◌≤◌, ◌^◌, IfOk, length, slice_index};
ghost use Rattle.design_circuit.specs.Order.{IsOrdering, IsIndexed, position_of};

use base_lists::Memory;
use std::alloc::Global;
use std::marker::Model;

/// Each net of a design once, in the order in which its places stand within a step. Contracts see the list of the nets.
#[derive(Debug, Drop)]
pub struct Order {
    nets: Vec<u32>,
    positions: Vec<u32>,
}

impl Model for Order {
    ghost use Rattle.std.specs.Prelude.{List, ℕ};
    ghost use Rattle.design_circuit.specs.Order.{IsIndexed};

    ghost Value = { List ℕ };

    ghost view = { λ order. order.nets.items };

    ghost invariant = { λ order. IsIndexed order.nets.items order.positions.items };
}

impl Order {
    /// The order that lists these nets. Takes four bytes for each.
    pub fn new(alloc: Global, nets: Vec<u32>) -> Result<Order, Memory>
        requires ordering { IsOrdering nets.items }
        requires few { length nets.items ≤ 2 ^ 20 }
        ensures { IfOk result (λ order. order ≡ nets.items) }
    {
        let positions = positions_of(alloc, &nets)?;
        Ok(Order { nets, positions })
    }

    /// The net at a position.
    pub fn net(&self, position: u32) -> u32
        requires { position < length self.now }
        ensures { result ≡ slice_index self.now position }
    {
        self.nets[position as usize]
    }

    /// The position of a net.
    pub fn position(&self, net: u32) -> u32
        requires { net < length self.now }
        ensures place { result ≡ position_of self.now net }
        ensures within { result < length self.now }
        ensures net { slice_index self.now result ≡ net }
    {
        self.positions[net as usize]
    }
}

fn positions_of(alloc: Global, nets: &[u32]) -> Result<Vec<u32>, Memory>
    requires ordering { IsOrdering nets.now }
    requires few { length nets.now ≤ 2 ^ 20 }
    ensures { IfOk result (λ positions. IsIndexed nets.now positions.items) }
{
    let mut positions = vec![in alloc; 0u32; nets.len()]?;
    'nets: for (position, net) in nets.iter().enumerate() {
        positions[*net as usize] = position as u32;
    }
    Ok(positions)
}
