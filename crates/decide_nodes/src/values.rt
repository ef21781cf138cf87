//! The values of a table.

ghost use Rattle.std.specs.Prelude.{◌≡◌, IfOk};

use base_lists::Memory;
use design_cell::Value;
use smallvec::SmallVec;
use std::alloc::Global;
use std::marker::Model;

/// Values in order, up to 16 of them in the place itself. Contracts see the list.
#[derive(Drop)]
pub struct Values {
    list: SmallVec<Value, 16>,
}

impl Model for Values {
    ghost use Rattle.std.specs.Prelude.{List};
    ghost use Rattle.design_cell.specs.declared.value.Value.{Value as AnyValue};

    ghost Value = { List AnyValue };

    ghost view = { λ values. values.list.items };
}

impl Values {
    /// The values of a vector.
    pub fn from_vec(values: Vec<Value>) -> Values
        ensures { result ≡ values.items }
    {
        Values {
            list: SmallVec::from_vec(values),
        }
    }

    /// Values once more. Takes a byte for each where they are more than 16.
    pub fn from_slice(alloc: Global, values: &[Value]) -> Result<Values, Memory>
        ensures { IfOk result (λ copy. copy ≡ values.now) }
    {
        let list = SmallVec::from_slice(alloc, values)?;
        Ok(Values { list })
    }

    /// The values.
    pub fn as_slice(&self) -> &[Value]
        ensures { result.now ≡ self.now }
    {
        self.list.as_slice()
    }
}
