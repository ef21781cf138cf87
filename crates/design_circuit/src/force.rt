//! Forces: events that make a net show another value than its driver's.

ghost use Rattle.std.specs.Prelude.{◌≡◌, []};

use design_cell::Value;
use std::alloc::Global;
use std::marker::Model;

/// A net is forced from a place on, or released there.
#[derive(Clone, Copy, Debug, PartialEq, Eq)]
pub struct Event {
    pub step: u32,
    pub net: u32,
    /// What the net shows from there on; `None` for a release.
    pub value: Option<Value>,
}

/// Events in place order, at most one a place. Contracts see the list.
#[derive(Debug, Drop)]
pub struct Forces {
    events: Vec<Event>,
}

impl Model for Forces {
    ghost use Rattle.std.specs.Prelude.{List};
    ghost use Rattle.design_circuit.specs.declared.force.Event.{Event as Forced};

    ghost Value = { List Forced };

    ghost view = { λ forces. forces.events.items };
}

impl Forces {
    /// No events.
    pub fn empty(alloc: Global) -> Forces
        ensures { result ≡ [] }
    {
        Forces {
            events: Vec::new(alloc),
        }
    }

    /// These events.
    pub fn from_vec(events: Vec<Event>) -> Forces
        ensures { result ≡ events.items }
    {
        Forces { events }
    }

    /// The events.
    pub fn as_slice(&self) -> &[Event]
        ensures { result.now ≡ self.now }
    {
        self.events.as_slice()
    }

    /// The events.
    pub fn into_vec(self) -> Vec<Event>
        ensures { result.items ≡ self }
    {
        self.events
    }
}
