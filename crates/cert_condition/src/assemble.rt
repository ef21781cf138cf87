//! Clauses, unit clauses and a denial, together as a query.

ghost use Rattle.std.specs.Prelude.{◌≡◌, ◌≢◌, ◌<◌, ◌≤◌, ◌^◌, ◌∷◌, ◌++◌, [], IfOk, OnOk, drop, length, map, pos};
ghost use Rattle.std.specs.Prelude.{slice_index_or};
ghost use Rattle.std.specs.List.{All};
ghost use Rattle.sat_proof.specs.Log.{Fit};
ghost use Rattle.decide_cnf.specs.Literals.{IsLiteral};
ghost use Rattle.cert_condition.specs.First.{IsAssembled};

use crate::next::NextQuery;
use base_lists::{Items, Memory};
use sat_proof::{Clause, Cnf};
use std::alloc::Global;

/// The query of clauses, of unit clauses but the first, which is away, and of a denial. Takes memory for these.
pub fn assemble(
    alloc: Global,
    vars: u32,
    mut clauses: Vec<Clause>,
    units: &[i32],
    denial: i32,
) -> Result<NextQuery, Memory>
    requires few { vars ≤ 2 ^ 27 }
    requires fit { Fit vars clauses.items }
    requires some { 0 < length units.now }
    requires units { All (IsLiteral vars) units.now }
    requires denial { IsLiteral vars denial }
    ensures { IfOk result (IsAssembled vars clauses.items units.now denial) }
{
    let cone = clauses.len();
    let away = first_clause(alloc, units)?;
    add_units(alloc, &mut clauses, without_first(units))?;
    clauses.push(unit_clause(alloc, denial)?)?;
    let query = Cnf {
        vars,
        clauses: Items::from_vec(clauses),
    };
    Ok(NextQuery { query, cone, away })
}

/// Adds literals as unit clauses.
fn add_units(alloc: Global, clauses: &mut Vec<Clause>, units: &[i32]) -> Result<(), Memory>
    requires { All (λ l. l ≢ pos 0) units.now }
    ensures { OnOk result (clauses.new.items ≡ clauses.old.items ++ map (λ l. l ∷ []) units.now) }
{
    'units: for unit in units {
        clauses.push(unit_clause(alloc, *unit)?)?;
    }
    Ok(())
}

/// The unit clause of the first.
fn first_clause(alloc: Global, units: &[i32]) -> Result<Clause, Memory>
    requires some { 0 < length units.now }
    requires no_zero { All (λ l. l ≢ pos 0) units.now }
    ensures { IfOk result (λ clause. clause ≡ slice_index_or units.now 0 (pos 0) ∷ []) }
{
    unit_clause(alloc, units[0])
}

/// What is behind the first.
fn without_first(units: &[i32]) -> &[i32]
    requires { 0 < length units.now }
    ensures { result.now ≡ drop 1 units.now }
{
    &units[1..]
}

fn unit_clause(alloc: Global, literal: i32) -> Result<Clause, Memory>
    requires { literal ≢ pos 0 }
    ensures { IfOk result (λ clause. clause ≡ literal ∷ []) }
{
    let mut list = Vec::with_capacity(alloc, 1)?;
    list.push(literal)?;
    Ok(Clause::from_vec(list))
}
