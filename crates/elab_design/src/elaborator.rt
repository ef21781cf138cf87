//! What elaborates the items of all modules.

use crate::library::Library;
use elab_gates::add_udp;
use elab_names::Here;
use elab_nets::ElabErr;
use elab_prims::Clocks;
use netlist_grammar::InstanceItem;
use std::alloc::Global;
use std::marker::Model;

/// The library of a text, and the clock pins of instances that were worked out so far.
#[derive(Drop)]
pub struct Elaborator<'t> {
    library: &'t Library<'t>,
    clocks: Clocks<'t>,
}

impl<'t> Model for Elaborator<'t> {
    ghost use Rattle.std.specs.Prelude.{◌≡◌};
    ghost use Rattle.elab_tree.specs.Library.{Library};

    ghost Value = { Library };

    ghost view = { λ e. e.library.now };

    ghost invariant = { λ e. e.clocks ≡ e.library.now.tables };
}

impl<'t> Elaborator<'t> {
    ghost use Rattle.std.specs.Prelude.{◌≡◌, ◌<◌, length};
    ghost use Rattle.design_circuit.specs.Job.{primitive_of};
    ghost use Rattle.elab_gates.specs.Primitives.{udp_item};
    ghost use Rattle.elab_nets.specs.Outcome.{Gives};

    /// One that begins, of this library.
    pub fn new(alloc: Global, library: &'t Library<'t>) -> Elaborator<'t>
        ensures { result ≡ library.now }
    {
        Elaborator {
            library,
            clocks: Clocks::new(alloc, library.udps()),
        }
    }

    /// The library.
    pub fn library(&self) -> &'t Library<'t>
        ensures { result.now ≡ self.now }
    {
        self.library
    }

    /// An instance of the primitive at a position.
    pub fn add_primitive(
        &mut self,
        here: &mut Here<'t>,
        item: &'t InstanceItem,
        k: usize,
    ) -> Result<(), ElabErr>
        requires { k < length self.old.source.primitives }
        ensures made { let wanted = udp_item k (primitive_of self.old.tables k) item.now here.old in
            Gives wanted result (λ _. here.new) }
        ensures same { self.new ≡ self.old }
    {
        let udp = self.library.udp(k);
        add_udp(here, &mut self.clocks, k as u32, udp, item)
    }
}
