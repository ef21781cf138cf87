//! What is said of nodes of a graph, said of the nodes of a cone, by a list of the positions that the graph's nodes
//! have there. Nothing is asked of that list: a wrong one makes another filling, or another log.

ghost use Rattle.std.specs.Prelude.{◌≡◌, ◌≢◌, ℕ, ◌<◌, ◌≤◌, ◌==◌, ◌||◌, false, pos, IfOk, IfSome, is_some, length, map};
ghost use Rattle.std.specs.Prelude.{nat_abs, slice_index_or};
ghost use Rattle.std.specs.List.{All, list_all};
ghost use Rattle.decide_nodes.specs.Lanes.{HasLanes};
ghost use Rattle.decide_guess.specs.Renamed.{GivesSources, has_one, has_variable, have_variables, literal_by, log_by};
ghost use Rattle.decide_guess.specs.Renamed.{stands_at};
ghost use Rattle.sat_proof.specs.Assignment.{HasNoZero};
ghost use Rattle.sat_proof.specs.Log.{Fit};

use crate::guess::NodeBit;
use base_lists::Memory;
use decide_nodes::{Cone, LaneBits};
use sat_proof::{Clause, Log};
use std::alloc::Global;

/// The same bits in all lanes for each source of a cone: 1 for the sources among some nodes of the graph. Takes a byte
/// a node of the cone, and 32 a source.
pub fn given_by(
    alloc: Global,
    cone: &Cone,
    positions: &[u32],
    ones: &[u32],
) -> Result<Vec<LaneBits>, Memory>
    ensures { IfOk result (λ given. GivesSources cone.now.nodes (has_one positions.now ones.now) given.items) }
{
    let mut marks = vec![in alloc; false; cone.nodes().len()]?;
    'ones: for node in ones {
        mark(&mut marks, positions, *node);
    }
    given_to(alloc, cone, &marks)
}

/// Marks the position of a node of the graph, if it has one.
fn mark(marks: &mut [bool], positions: &[u32], node: u32)
    ensures length { length marks.new ≡ length marks.old }
    ensures each { (k : ℕ) → k < length marks.old
        → slice_index_or marks.new k false ≡ (slice_index_or marks.old k false || stands_at positions.now k node) }
{
    let place = node as usize;
    if place < positions.len() {
        set_mark(marks, positions[place] as usize);
    }
}

fn set_mark(marks: &mut [bool], position: usize)
    ensures length { length marks.new ≡ length marks.old }
    ensures each { (k : ℕ) → k < length marks.old
        → slice_index_or marks.new k false ≡ (slice_index_or marks.old k false || position == k) }
{
    if position < marks.len() {
        marks[position] = true;
    }
}

/// The bits of the sources among the nodes of a cone, by those of all nodes.
fn given_to(alloc: Global, cone: &Cone, marks: &[bool]) -> Result<Vec<LaneBits>, Memory>
    requires { length marks.now ≡ length cone.now.nodes }
    ensures { IfOk result (λ given. GivesSources cone.now.nodes (λ k. slice_index_or marks.now k false) given.items) }
{
    let nodes = cone.nodes();
    let mut given = Vec::new(alloc);
    'nodes: for position in 0..nodes.len() {
        if nodes[position].is_source() {
            given.push(equal_lanes(marks[position]))?;
        }
    }
    Ok(given)
}

/// The lanes with a bit in each lane.
fn equal_lanes(bit: bool) -> LaneBits
    ensures { HasLanes result (λ lane. bit) }
{
    if bit {
        LaneBits::ones()
    } else {
        LaneBits::zeros()
    }
}

/// The log of clauses over nodes of the graph and of the empty clause, where these are the variables from 1 on by their
/// positions; none where one of them is past a number of variables. Takes about 24 bytes a clause, and 4 a literal.
pub fn log_of(
    alloc: Global,
    positions: &[u32],
    vars: u32,
    clauses: &[Vec<NodeBit>],
) -> Result<Option<Log>, Memory>
    requires { vars ≤ 2147483647 }
    ensures found { IfOk result (λ found. is_some found ≡ list_all (have_variables positions.now vars) clauses.now) }
    ensures log { IfOk result (λ found. IfSome found (λ log. log ≡ log_by positions.now clauses.now)) }
    ensures fit { IfOk result (λ found. IfSome found (Fit vars)) }
{
    let mut log = Vec::new(alloc);
    'clauses: for k in 0..clauses.len() {
        let Some(literals) = literals_of(alloc, positions, vars, clauses[k].as_slice())? else {
            return Ok(None);
        };
        log.push(Clause::from_vec(literals))?;
    }
    log.push(Clause::from_vec(Vec::new(alloc)))?;
    Ok(Some(Log::from_vec(log)))
}

/// The literals of one clause.
fn literals_of(
    alloc: Global,
    positions: &[u32],
    vars: u32,
    clause: &[NodeBit],
) -> Result<Option<Vec<i32>>, Memory>
    requires { vars ≤ 2147483647 }
    ensures found { IfOk result (λ found. is_some found ≡ list_all (has_variable positions.now vars) clause.now) }
    ensures list { IfOk result (λ found. IfSome found (λ list. list.items ≡ map (literal_by positions.now) clause.now)) }
    ensures fit { IfOk result (λ found. IfSome found (λ list. All (λ l. nat_abs l ≤ vars) list.items)) }
    ensures no_zero { IfOk result (λ found. IfSome found (λ list. HasNoZero list.items)) }
{
    let mut literals = Vec::new(alloc);
    'nodes: for k in 0..clause.len() {
        let Some(literal) = literal_of(positions, vars, clause[k]) else {
            return Ok(None);
        };
        literals.push(literal)?;
    }
    Ok(Some(literals))
}

/// The literal that a node has a bit.
fn literal_of(positions: &[u32], vars: u32, node_bit: NodeBit) -> Option<i32>
    requires { vars ≤ 2147483647 }
    ensures found { is_some result ≡ has_variable positions.now vars node_bit }
    ensures literal { IfSome result (λ l. l ≡ literal_by positions.now node_bit) }
    ensures fit { IfSome result (λ l. nat_abs l ≤ vars) }
    ensures no_zero { IfSome result (λ l. l ≢ pos 0) }
{
    let place = node_bit.node as usize;
    if place < positions.len() && positions[place] < vars {
        let variable = (positions[place] + 1) as i32;
        Some(if node_bit.bit { variable } else { -variable })
    } else {
        None
    }
}
