//! Nodes as they are kept: what all of them read in one list, and the values of all their tables in another.

ghost use Rattle.std.specs.Prelude.{◌≡◌, ◌<◌, ◌≤◌, ◌^◌, ◌++◌, ◌∷◌, [], IfOk, OnErr, OnOk, length};
ghost use Rattle.std.specs.List.{list_any};
ghost use Rattle.design_cell.specs.Value.{is_unknown};
ghost use Rattle.decide_nodes.specs.Nodes.{node_at};
ghost use Rattle.decide_graph.specs.Kept.{node_of, ruled_node};

use base_lists::Memory;
use design_cell::Value;
use design_circuit::Place;
use std::alloc::Global;
use std::marker::Model;
use std::mem::size_of;

/// The place of a node, and where what it reads and its table stand in the lists of all nodes: 24 bytes.
#[derive(Clone, Copy, Debug)]
pub struct Entry {
    place: Place,
    values_start: usize,
    arguments_start: u32,
    values_count: u16,
    arguments_count: u8,
}

const _: () = prove!(size_of::<Entry>() == 24);

/// A node of a place that isn't carried: the place, the nodes that it reads, and its table over these.
#[derive(Clone, Copy, Debug)]
pub struct KeptNode<'a> {
    pub place: Place,
    pub arguments: &'a [u32],
    pub values: &'a [Value],
}

impl<'a> KeptNode<'a> {
    ghost use Rattle.decide_nodes.specs.Nodes.{is_source_node};

    /// Whether it is a source: its table has x somewhere.
    pub fn is_source(&self) -> bool
        ensures { result ≡ is_source_node (node_of self.now) }
    {
        any_unknown(self.values)
    }
}

fn any_unknown(values: &[Value]) -> bool
    ensures { result ≡ list_any is_unknown values.now }
{
    values
        .iter()
        .any(|value| matches!(*value, Value::X | Value::Z))
}

/// Nodes by number, none of a carried place. Contracts see them in order. Takes 24 bytes a node, 4 for each node that
/// it reads, and 1 a value.
#[derive(Drop)]
pub struct KeptNodes {
    entries: Vec<Entry>,
    arguments: Vec<u32>,
    values: Vec<Value>,
}

impl Model for KeptNodes {
    ghost use Rattle.std.specs.Prelude.{List};
    ghost use Rattle.decide_nodes.specs.declared.node.Node.{Node as AnyNode};
    ghost use Rattle.decide_graph.specs.Kept.{AreEntriesWithin, seen_nodes};

    ghost Value = { List AnyNode };

    ghost view = { λ kept. seen_nodes kept.arguments.items kept.values.items kept.entries.items };

    ghost invariant = { λ kept. AreEntriesWithin kept.arguments.items kept.values.items kept.entries.items };
}

impl KeptNodes {
    /// No nodes.
    pub fn new(alloc: Global) -> KeptNodes
        ensures { result ≡ [] }
    {
        KeptNodes {
            entries: Vec::new(alloc),
            arguments: Vec::new(alloc),
            values: Vec::new(alloc),
        }
    }

    /// How many there are.
    pub fn len(&self) -> usize
        ensures { result ≡ length self.now }
    {
        self.entries.len()
    }

    /// A node comes in, from its place, the nodes that it reads and its table.
    pub fn push(&mut self, place: Place, arguments: &[u32], values: &[Value]) -> Result<(), Memory>
        requires few { length arguments.now ≤ 13 }
        requires table { length values.now ≤ 2 ^ 13 }
        ensures ok { OnOk result (self.new ≡ self.old ++ ruled_node place arguments.now values.now ∷ []) }
        ensures err { OnErr result (self.new ≡ self.old) }
    {
        let entry = Entry {
            place,
            values_start: self.values.len(),
            arguments_start: narrow(self.arguments.len())?,
            values_count: values.len() as u16,
            arguments_count: arguments.len() as u8,
        };
        self.arguments.extend_from_slice(arguments)?;
        self.values.extend_from_slice(values)?;
        self.entries.push(entry)?;
        Ok(())
    }

    /// The node of a number.
    pub fn node(&self, number: usize) -> KeptNode<'_>
        requires { number < length self.now }
        ensures { node_at self.now number ≡ node_of result }
    {
        let entry = self.entries[number];
        let start = entry.arguments_start as usize;
        let end = start + entry.arguments_count as usize;
        let values_end = entry.values_start + entry.values_count as usize;
        KeptNode {
            place: entry.place,
            arguments: &self.arguments[start..end],
            values: &self.values[entry.values_start..values_end],
        }
    }
}

/// A number in four bytes, if it fits: so many arguments there never are, as 2^27 nodes read at most 13 each.
fn narrow(number: usize) -> Result<u32, Memory>
    ensures { IfOk result (λ narrow. narrow ≡ number) }
{
    if number > u32::MAX as usize {
        return Err(Memory);
    }
    Ok(number as u32)
}
