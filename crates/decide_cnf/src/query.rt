//! The query of a cone.

ghost use Rattle.std.specs.Prelude.{◌≡◌, ◌^◌, ◌<◌, ◌≤◌, ◌∷◌, ◌++◌, [], IfOk, OnOk, length};
ghost use Rattle.std.specs.List.{All};
ghost use Rattle.decide_nodes.specs.Nodes.{AreNodes, StandsAt};
ghost use Rattle.decide_cnf.specs.Clauses.{AreMade, AreNodeClauses, IsBodyClause, IsNodeClause, denial_of};
ghost use Rattle.decide_cnf.specs.Growth.{IsGrown};
ghost use Rattle.decide_cnf.specs.Literals.{AreLiterals, IsLiteral};
ghost use Rattle.decide_cnf.specs.Query.{IsQueryOfNodes};

use crate::lists::Lists;
use crate::literals::{literals_of, turned, variables_of};
use crate::tables::{Table, add_table};
use base_lists::{Items, Memory};
use decide_nodes::{Cone, Node, NodeBody};
use sat_proof::{Clause, Cnf};
use smallvec::SmallVec;
use std::alloc::Global;

/// The query of a cone: the clauses of all minimal choices of its tables, and the denial of its base, each once. Takes
/// four bytes a node, and for each clause about 65 and four a literal, in steps that double.
pub fn clauses(alloc: Global, cone: &Cone) -> Result<Cnf, Memory>
    ensures query { IfOk result (λ cnf. IsQueryOfNodes cone.now.nodes cnf) }
    ensures few { IfOk result (λ cnf. cnf.vars ≤ 2 ^ 27) }
{
    let nodes = cone.nodes();
    let literals = literals_of(alloc, nodes)?;
    let clauses = clauses_over(alloc, nodes, &literals, cone.base())?;
    Ok(Cnf {
        vars: variables_of(nodes) as u32,
        clauses: Items::from_vec(clauses),
    })
}

/// The clauses over the literals of nodes, each once.
fn clauses_over(
    alloc: Global,
    nodes: &[Node],
    literals: &[i32],
    base: bool,
) -> Result<Vec<Clause>, Memory>
    requires nodes { AreNodes nodes.now }
    requires literals { AreLiterals nodes.now literals.now }
    ensures { IfOk result (λ clauses. AreMade nodes.now literals.now base clauses.items) }
{
    let mut lists = Lists::new(alloc);
    add_nodes(alloc, &mut lists, nodes, literals)?;
    add_denial(alloc, &mut lists, literals, base)?;
    let clauses = lists.into_clauses(alloc)?;
    Ok(clauses)
}

/// The clauses of all minimal choices of the tables of nodes, over their literals, each once.
pub fn node_clauses(alloc: Global, nodes: &[Node], literals: &[i32]) -> Result<Vec<Clause>, Memory>
    requires nodes { AreNodes nodes.now }
    requires literals { AreLiterals nodes.now literals.now }
    ensures { IfOk result (λ clauses. AreNodeClauses nodes.now literals.now clauses.items) }
{
    let mut lists = Lists::new(alloc);
    add_nodes(alloc, &mut lists, nodes, literals)?;
    let clauses = lists.into_clauses(alloc)?;
    Ok(clauses)
}

/// Adds the clauses of all nodes.
fn add_nodes(
    alloc: Global,
    lists: &mut Lists,
    nodes: &[Node],
    literals: &[i32],
) -> Result<(), Memory>
    requires nodes { AreNodes nodes.now }
    requires literals { AreLiterals nodes.now literals.now }
    ensures { OnOk result (IsGrown (IsNodeClause nodes.now literals.now) lists.old lists.new) }
{
    'nodes: for position in 0..nodes.len() {
        add_body(alloc, lists, &nodes[position].body, literals, position)?;
    }
    Ok(())
}

/// Adds those of one node.
fn add_body(
    alloc: Global,
    lists: &mut Lists,
    body: &NodeBody,
    literals: &[i32],
    position: usize,
) -> Result<(), Memory>
    requires within { position < length literals.now }
    requires stands { StandsAt position body.now }
    requires fit { All (IsLiteral (2 ^ 27)) literals.now }
    ensures { OnOk result (IsGrown (IsBodyClause literals.now position body.now) lists.old lists.new) }
{
    match body {
        NodeBody::Carried { .. } => Ok(()),
        NodeBody::Rule { arguments, values } => {
            let table = Table {
                literals,
                arguments: arguments.as_slice(),
                values: values.as_slice(),
                position,
            };
            add_table(alloc, lists, &table)
        }
    }
}

/// Adds the clause that denies a bit of the last node.
fn add_denial(alloc: Global, lists: &mut Lists, literals: &[i32], base: bool) -> Result<(), Memory>
    requires some { 0 < length literals.now }
    requires fit { All (IsLiteral (2 ^ 27)) literals.now }
    ensures { OnOk result (lists.new ≡ lists.old ++ denial_of literals.now base ∷ []) }
{
    let mut list = SmallVec::new(alloc);
    list.push(turned(literals[literals.len() - 1], !base))?;
    lists.push(list)
}
