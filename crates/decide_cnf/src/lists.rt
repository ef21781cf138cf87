//! Lists of literals, and the clauses that they are, each once.

ghost use Rattle.std.specs.Prelude.{◌≡◌, ◌∷◌, ◌++◌, [], IfOk, OnOk, map};
ghost use Rattle.std.specs.List.{All};
ghost use Rattle.sat_proof.specs.Assignment.{HasNoZero};
ghost use Rattle.decide_cnf.specs.Growth.{AreOnce};

use crate::clause::Literals;
use base_lists::Memory;
use sat_proof::Clause;
use std::alloc::Global;
use std::marker::Model;

/// Lists of literals.
#[derive(Drop)]
pub struct Lists {
    lists: Vec<Literals>,
}

impl Model for Lists {
    ghost use Rattle.std.specs.Prelude.{List, ℤ, map};

    ghost Value = { List (List ℤ) };

    ghost view = { λ lists. map (λ v. v.items) lists.lists.items };
}

impl Lists {
    /// No list.
    pub fn new(alloc: Global) -> Lists
        ensures { result ≡ [] }
    {
        Lists {
            lists: Vec::new(alloc),
        }
    }

    /// Appends a list.
    pub fn push(&mut self, list: Literals) -> Result<(), Memory>
        ensures { OnOk result (self.new ≡ self.old ++ list.items ∷ []) }
    {
        self.lists.push(list)?;
        Ok(())
    }

    /// The clauses that the lists are, each once, in the order of their literals. Sorts them.
    pub fn into_clauses(self, alloc: Global) -> Result<Vec<Clause>, Memory>
        requires { All HasNoZero self }
        ensures { IfOk result (λ clauses. AreOnce self clauses.items) }
    {
        let Lists { lists } = self;
        let lists = once(lists)?;
        clauses_of(alloc, lists)
    }
}

/// The lists in the order of their literals, each once.
fn once(mut lists: Vec<Literals>) -> Result<Vec<Literals>, Memory>
    ensures { IfOk result (λ found. AreOnce (map (λ v. v.items) lists.items) (map (λ v. v.items) found.items)) }
{
    lists.sort()?;
    lists.dedup();
    Ok(lists)
}

fn clauses_of(alloc: Global, lists: Vec<Literals>) -> Result<Vec<Clause>, Memory>
    requires { All HasNoZero (map (λ v. v.items) lists.items) }
    ensures { IfOk result (λ clauses. clauses.items ≡ map (λ v. v.items) lists.items) }
{
    let mut clauses = Vec::with_capacity(alloc, lists.len())?;
    'lists: for list in lists {
        let literals = list.into_vec()?;
        clauses.push(Clause::from_vec(literals))?;
    }
    Ok(clauses)
}
