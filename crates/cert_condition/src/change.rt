//! Changes of the query that is kept: a unit clause is taken away, and another one stands there.

ghost use Rattle.std.specs.Prelude.{◌≡◌, ◌<◌, ◌+◌, length};
ghost use Rattle.cert_condition.specs.Exchange.{IsExchanged, IsNextExchanged, IsNextTaken, IsTakenAway};

use crate::next::NextQuery;
use base_lists::Items;
use sat_proof::Cnf;
use std::mem;

/// Where another turn comes after the next one, the query for it: its unit clause is taken away.
pub fn next_taken(next: NextQuery, kept: usize, due: usize) -> NextQuery
    requires { 1 < due → length next.query.clauses ≡ next.cone + (kept + due) }
    ensures { IsNextTaken next kept due result }
{
    if due > 1 {
        let place = next.cone + kept;
        return take(next, place);
    }
    next
}

/// The same where the place stays: its own unit clause stands there.
pub fn next_exchanged(next: NextQuery, kept: usize, due: usize) -> NextQuery
    requires { 1 < due → length next.query.clauses ≡ next.cone + (kept + due) }
    ensures { IsNextExchanged next kept due result }
{
    if due > 1 {
        let place = next.cone + kept;
        return exchange(next, place);
    }
    next
}

/// The unit clause at a place is taken away, and the one that was away is forgotten.
fn take(next: NextQuery, place: usize) -> NextQuery
    requires { place < length next.query.clauses }
    ensures { IsTakenAway next place result }
{
    let NextQuery { query, cone, .. } = next;
    let Cnf { vars, clauses } = query;
    let mut clauses = clauses.into_vec();
    let away = clauses.remove(place);
    let query = Cnf {
        vars,
        clauses: Items::from_vec(clauses),
    };
    NextQuery { query, cone, away }
}

/// The unit clause at a place is taken away, and the one that was away stands there.
fn exchange(next: NextQuery, place: usize) -> NextQuery
    requires { place < length next.query.clauses }
    ensures { IsExchanged next place result }
{
    let NextQuery { query, cone, away } = next;
    let Cnf { vars, clauses } = query;
    let mut clauses = clauses.into_vec();
    let away = mem::replace(&mut clauses[place], away);
    let query = Cnf {
        vars,
        clauses: Items::from_vec(clauses),
    };
    NextQuery { query, cone, away }
}
