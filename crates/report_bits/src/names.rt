//! The written names of nets, each made once.

ghost use Rattle.std.specs.Prelude.{◌≡◌, ◌<◌, ◌++◌, IfOk, OnOk, length};
ghost use Rattle.design_circuit.specs.Design.{name_in};
ghost use Rattle.design_circuit.specs.Name.{written_name};
ghost use Rattle.report_bits.specs.Names.{HasNoName};

use base_lists::{Items, Memory, put};
use design_circuit::{Bytes, Design};
use std::alloc::Global;
use std::marker::Model;

/// The written names of the nets of a design: each is made where it is put first, and kept. Contracts see the design.
#[derive(Drop)]
pub struct Names<'a> {
    design: &'a Design,
    names: Vec<Option<Bytes>>,
}

impl<'a> Model for Names<'a> {
    ghost use Rattle.design_circuit.specs.declared.design.Design.{Design as ADesign};
    ghost use Rattle.report_bits.specs.Names.{AreNamesIn};

    ghost Value = { ADesign };

    ghost view = { λ n. n.design.now };

    ghost invariant = { λ n. AreNamesIn n.design.now n.names.items };
}

impl<'a> Names<'a> {
    /// Those of a design, of which none is made yet. Takes 32 bytes for each net.
    pub fn of(alloc: Global, design: &'a Design) -> Result<Names<'a>, Memory>
        ensures { IfOk result (λ names. names ≡ design.now) }
    {
        let names = no_names(alloc, design.nets.as_slice().len())?;
        Ok(Names { design, names })
    }

    /// Puts the name of a net. Takes the bytes of the name where it isn't made yet.
    pub fn put_name(&mut self, alloc: Global, text: &mut Vec<u8>, net: u32) -> Result<(), Memory>
        requires { net < length self.old.nets }
        ensures same { self.new ≡ self.old }
        ensures text { OnOk result
            (text.new.items ≡ text.old.items ++ written_name (name_in self.old net)) }
    {
        if let Some(name) = &self.names[net as usize] {
            return put(text, name.as_slice());
        }
        let name = self.design.written_name(alloc, net)?;
        put(text, name.as_slice())?;
        self.names[net as usize] = Some(Items::from_vec(name));
        Ok(())
    }
}

/// No name for each of so many nets.
fn no_names(alloc: Global, nets: usize) -> Result<Vec<Option<Bytes>>, Memory>
    ensures long { IfOk result (λ names. length names.items ≡ nets) }
    ensures none { IfOk result (λ names. HasNoName names.items) }
{
    let mut names = Vec::with_capacity(alloc, nets)?;
    'nets: while names.len() < nets {
        names.push(None)?;
    }
    Ok(names)
}
