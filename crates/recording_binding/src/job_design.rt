//! A design with inputs in place of nets without a driver.

ghost use Rattle.std.specs.Prelude.{◌≡◌, ◌<◌, length, slice_set, slice_index_or};
ghost use Rattle.design_circuit.specs.declared.design.Net.{Net as ANet};
ghost use Rattle.recording_binding.specs.Holding.{held_in};
ghost use Rattle.recording_binding.specs.JobDesign as spec;

use crate::inputs::Holder;
use base_lists::Items;
use design_circuit::{Design, Driver, Net};

/// A design with an input in place of each net without a driver that a variable holds.
pub fn with_inputs(design: Design, holders: &[Option<Holder>]) -> Design
    requires { length holders.now ≡ length design.nets }
    ensures { result ≡ spec.with_inputs (held_in holders.now) design }
{
    let Design { nets, udps } = design;
    let mut nets = nets.into_vec();
    put_inputs(nets.as_mut_slice(), holders);
    Design {
        nets: Items::from_vec(nets),
        udps,
    }
}

fn put_inputs(nets: &mut [Net], holders: &[Option<Holder>])
    requires { length holders.now ≡ length nets.old }
    ensures { nets.new ≡ spec.nets_where (held_in holders.now) 0 nets.old }
{
    'places: for (place, holder) in holders.iter().enumerate() {
        put_input(nets, place, *holder);
    }
}

/// Gives a net an input in place of no driver, where a variable holds it.
fn put_input(nets: &mut [Net], place: usize, holder: Option<Holder>)
    requires { place < length nets.old }
    ensures { (other : ANet) → nets.new
        ≡ slice_set nets.old place (spec.net_where holder (slice_index_or nets.old place other)) }
{
    if becomes_input(&nets[place].driver, holder) {
        nets[place].driver = Driver::Input;
    }
}

fn becomes_input(driver: &Driver, holder: Option<Holder>) -> bool
    ensures { result ≡ spec.becomes_input holder driver.now }
{
    match holder {
        None => false,
        Some(_) => is_undriven(driver),
    }
}

fn is_undriven(driver: &Driver) -> bool
    ensures { result ≡ spec.is_undriven driver.now }
{
    matches!(driver, Driver::Undriven)
}
