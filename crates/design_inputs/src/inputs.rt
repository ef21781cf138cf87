//! The values of all moments.

ghost use Rattle.std.specs.Prelude.{◌≡◌, ◌<◌, ◌≤◌, ◌^◌, All, IfOk, length, slice_index_or};
ghost use Rattle.design_cell.specs.declared.value.Value.TheVariants.{X};
ghost use Rattle.design_inputs.specs.Codes.{AreWide, value_rows};
ghost use Rattle.design_inputs.specs.Rows.{AreChanged, HasWidth, moment_row};

use crate::code::value_of;
use crate::writer::InputsWriter;
use base_ledger::{Change, LedgerIndex};
use base_lists::{Items, Memory};
use design_cell::Value;
use std::alloc::Global;
use std::marker::Model;

/// A value for each net in each moment, written by an `InputsWriter`. Contracts see for each moment the row of values.
/// Takes eight bytes for each value that isn't that of the moment before, and eight for each net and for each moment.
#[derive(Debug, Drop)]
pub struct Inputs {
    rows: LedgerIndex,
}

impl Model for Inputs {
    ghost use Rattle.std.specs.Prelude.{List};
    ghost use Rattle.design_cell.specs.declared.value.Value.{Value as AnyValue};
    ghost use Rattle.design_inputs.specs.Codes.{AreWide, value_rows};

    ghost Value = { List (List AnyValue) };

    ghost view = { λ i. value_rows i.rows.steps };

    ghost invariant = { λ i. AreWide i.rows.width i.rows.steps };
}

impl Inputs {
    /// The values of rows of codes.
    pub(crate) fn new(rows: LedgerIndex) -> Inputs
        requires { AreWide rows.width rows.steps }
        ensures { result ≡ value_rows rows.steps }
    {
        Inputs { rows }
    }

    /// The same values as a row for each moment. Takes what a writer takes.
    pub fn from_rows(alloc: Global, rows: &[Items<Value>]) -> Result<Inputs, Memory>
        requires some { 0 < length rows.now }
        requires width { length (moment_row rows.now 0) ≤ 2 ^ 20 }
        requires even { All (HasWidth (length (moment_row rows.now 0))) rows.now }
        ensures { IfOk result (λ inputs. inputs ≡ rows.now) }
    {
        let first = rows[0].as_slice();
        let mut writer = InputsWriter::new(alloc, first.len())?;
        writer.set_row(first)?;
        writer.add_rows(&rows[1..])?;
        writer.finish(alloc)
    }

    /// How many moments there are.
    pub fn len(&self) -> usize
        ensures { result ≡ length self.now }
    {
        self.rows.steps()
    }

    /// The value of a net in a moment, looked for among the changes of the net.
    pub fn value(&self, moment: usize, net: usize) -> Value
        requires moment { moment < length self.now }
        requires net { net < length (moment_row self.now moment) }
        ensures { result ≡ slice_index_or (moment_row self.now moment) net X }
    {
        value_of(self.rows.at(net, moment))
    }

    /// The changes of a moment, with each net that has another value than in the moment before. A net may have several,
    /// and one that has the same value may have some.
    pub fn changed(&self, moment: usize) -> &[Change]
        requires later { 0 < moment }
        requires moment { moment < length self.now }
        ensures { AreChanged self.now moment result.now }
    {
        self.rows.changes_of(moment)
    }

    /// Another one of the same values. Takes as much memory.
    pub fn copied(&self, alloc: Global) -> Result<Inputs, Memory>
        ensures { IfOk result (λ copy. copy ≡ self.now) }
    {
        let rows = self.rows.copied(alloc)?;
        Ok(Inputs { rows })
    }
}
