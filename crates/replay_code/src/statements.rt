//! The events of statements, and to what each net is forced by them.

ghost use Rattle.std.specs.Prelude.{◌≡◌, ◌<◌, [], ◌∷◌, ◌++◌, IfOk, OnOk};
ghost use Rattle.replay_code.specs.Statements.{forced_now};

use base_lists::Memory;
use design_cell::Value;
use design_circuit::Event;
use std::alloc::Global;
use std::marker::Model;

/// The events of statements, in the order in which these stand, with a table of the nets that are forced now.
#[derive(Drop)]
pub struct Statements {
    events: Vec<Event>,
    forced: Vec<Option<Value>>,
}

impl Model for Statements {
    ghost use Rattle.std.specs.Prelude.{length};
    ghost use Rattle.replay_code.specs.Statements.{IsForcedTable, Statements as Stated};

    ghost Value = { Stated };

    ghost view = { λ s. record { nets = length s.forced.items; events = s.events.items } };

    ghost invariant = { λ s. IsForcedTable s.forced.items s.events.items };
}

impl Statements {
    /// No statement about so many nets. Takes a byte or two for each.
    pub fn new(alloc: Global, nets: usize) -> Result<Statements, Memory>
        ensures { IfOk result (λ s. s ≡ record { nets = nets; events = [] }) }
    {
        Ok(Statements {
            events: Vec::new(alloc),
            forced: vec![in alloc; None; nets]?,
        })
    }

    /// To what a net is forced now.
    pub fn forced(&self, net: u32) -> Option<Value>
        requires { net < self.now.nets }
        ensures { result ≡ forced_now self.now.events net }
    {
        self.forced[net as usize]
    }

    /// One more event.
    pub fn push(&mut self, event: Event) -> Result<(), Memory>
        requires { event.net < self.old.nets }
        ensures pushed { OnOk result (self.new.events ≡ self.old.events ++ event ∷ []) }
        ensures nets { self.new.nets ≡ self.old.nets }
    {
        self.events.push(event)?;
        self.forced[event.net as usize] = event.value;
        Ok(())
    }

    /// The events.
    pub fn into_events(self) -> Vec<Event>
        ensures { result.items ≡ self.events }
    {
        let Statements { events, .. } = self;
        events
    }
}
