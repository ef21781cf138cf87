//! The values as they are written, moment by moment.

ghost use Rattle.std.specs.Prelude.{◌≡◌, ◌++◌, ◌<◌, ◌≤◌, ◌^◌, All, IfOk, OnErr, OnOk, length};
ghost use Rattle.design_inputs.specs.Rows.{HasWidth, after_moment, all_rows, new_rows, with_values, with_value};

use crate::code::code_of;
use crate::inputs::Inputs;
use base_ledger::Ledger;
use base_lists::{Items, Memory};
use design_cell::Value;
use std::alloc::Global;
use std::marker::Model;

/// A value for each net in each moment so far. Contracts see the rows of the moments before, and that of the moment
/// under way.
#[derive(Debug, Drop)]
pub struct InputsWriter {
    rows: Ledger,
}

impl Model for InputsWriter {
    ghost use Rattle.design_inputs.specs.Codes.{IsWide, written_rows};
    ghost use Rattle.design_inputs.specs.Rows.{WrittenRows};

    ghost Value = { WrittenRows };

    ghost view = { λ w. written_rows w.rows };

    ghost invariant = { λ w. IsWide w.rows };
}

impl InputsWriter {
    /// The first moment is under way, with the value x for each of so many nets. Takes three bytes for each net; what
    /// follows takes four bytes for each change and eight for each moment.
    pub fn new(alloc: Global, width: usize) -> Result<InputsWriter, Memory>
        requires { width ≤ 2 ^ 20 }
        ensures { IfOk result (λ writer. writer ≡ new_rows width) }
    {
        let rows = Ledger::new(alloc, width, code_of(Value::X))?;
        Ok(InputsWriter { rows })
    }

    /// Gives a net its value in the moment under way. Takes four bytes where that isn't the one that it has.
    pub fn set(&mut self, net: usize, value: Value) -> Result<(), Memory>
        requires { net < length self.old.row }
        ensures ok { OnOk result (self.new ≡ with_value self.old net value) }
        ensures err { OnErr result (self.new ≡ self.old) }
    {
        let code = code_of(value);
        if self.rows.now(net) == code {
            return Ok(());
        }
        self.rows.put(net, code)?;
        Ok(())
    }

    /// Goes on to the next moment, which begins as the one under way ends. Takes eight bytes, and the time of the
    /// changes of this moment and the one before.
    pub fn next_moment(&mut self) -> Result<(), Memory>
        ensures ok { OnOk result (self.new ≡ after_moment self.old) }
        ensures err { OnErr result (self.new ≡ self.old) }
    {
        self.rows.turn()?;
        Ok(())
    }

    /// The values of all moments, with the one under way as the last. Takes eight bytes for each net and four for each
    /// change; with 2^32 changes or more it answers `Memory`.
    pub fn finish(self, alloc: Global) -> Result<Inputs, Memory>
        ensures { IfOk result (λ inputs. inputs ≡ all_rows self) }
    {
        let InputsWriter { rows } = self;
        let rows = rows.index(alloc)?;
        Ok(Inputs::new(rows))
    }

    /// Gives each net its value in the moment under way.
    pub(crate) fn set_row(&mut self, row: &[Value]) -> Result<(), Memory>
        requires { HasWidth (length self.old.row) row.now }
        ensures { OnOk result (self.new ≡ with_values self.old row.now) }
    {
        'nets: for (net, value) in row.iter().enumerate() {
            self.set(net, *value)?;
        }
        Ok(())
    }

    /// Adds a moment for each row.
    pub(crate) fn add_rows(&mut self, rows: &[Items<Value>]) -> Result<(), Memory>
        requires { All (HasWidth (length self.old.row)) rows.now }
        ensures { OnOk result (all_rows self.new ≡ all_rows self.old ++ rows.now) }
    {
        'rows: for row in rows {
            self.next_moment()?;
            self.set_row(row.as_slice())?;
        }
        Ok(())
    }
}
