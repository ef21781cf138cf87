//! The names of a module's ports, found by a set.

ghost use Rattle.std.specs.Prelude.{[], OnOk};
ghost use Rattle.elab_names.specs.Sets.{HasNames};

use crate::name_set::NameSet;
use netlist_grammar::Word;
use std::alloc::{AllocError, Global};
use std::marker::Model;

/// The ports of a module in their order, to be looked up by name.
#[derive(Drop)]
pub struct PortNames<'t> {
    ports: &'t [Word],
    names: NameSet<'t>,
}

impl<'t> Model for PortNames<'t> {
    ghost use Rattle.std.specs.Prelude.{List};
    ghost use Rattle.netlist_grammar.specs.declared.tree.Word.{Word};
    ghost use Rattle.elab_names.specs.Sets.{HasNames};

    ghost Value = { List Word };

    ghost view = { λ p. p.ports.now };

    ghost invariant = { λ p. HasNames p.names p.ports.now };
}

impl<'t> PortNames<'t> {
    ghost use Rattle.std.specs.Prelude.{◌≡◌, IfOk};
    ghost use Rattle.elab_names.specs.Sets.{is_among};

    /// The ports with their names in a set.
    pub fn new(alloc: Global, ports: &'t [Word]) -> Result<PortNames<'t>, AllocError>
        ensures { IfOk result (λ p. p ≡ ports.now) }
    {
        let mut names = NameSet::new(alloc);
        add_names(&mut names, ports)?;
        Ok(PortNames { ports, names })
    }

    /// The ports in their order.
    pub fn ports(&self) -> &'t [Word]
        ensures { result.now ≡ self.now }
    {
        self.ports
    }

    /// Whether a port has the name.
    pub fn has(&self, name: &[u8]) -> bool
        ensures { result ≡ is_among self.now name.now }
    {
        self.names.has(name)
    }
}

/// Puts the names of words into an empty set.
#[tactic(auto, using(crate::proofs::SetLemmas::has_more))]
fn add_names<'t>(names: &mut NameSet<'t>, words: &'t [Word]) -> Result<(), AllocError>
    requires { HasNames names.old [] }
    ensures { OnOk result (HasNames names.new words.now) }
{
    'words: for word in words {
        names.add(word.text.as_slice())?;
    }
    Ok(())
}
