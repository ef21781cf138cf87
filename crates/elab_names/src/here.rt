//! Where elaboration stands.

use crate::scope::Scope;
use elab_nets::Nets;
use std::alloc::Global;
use std::marker::Model;

/// The module that is open, by its names, and all nets that are made, with what memory is taken from.
#[derive(Drop)]
pub struct Here<'t> {
    pub alloc: Global,
    pub scope: Scope<'t>,
    pub nets: Nets,
}

impl<'t> Model for Here<'t> {
    ghost use Rattle.elab_names.specs.Here.{Here, here_of};

    ghost Value = { Here };

    ghost view = { λ h. here_of h.scope h.nets };
}
