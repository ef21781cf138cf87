//! What the analysis of a conflict met, and the clause that it comes to.

ghost use Rattle.std.specs.Prelude.{◌≡◌, ◌++◌, false, [], ◌∷◌, OnOk, OnErr, slice_index_or, slice_set, take};
ghost use Rattle.sat_watches.specs.Literal.{no_literal};
ghost use Rattle.sat_watches.specs.Seen.{forgotten, none_met, with_met};

use crate::literal::{Literal, Variable};
use crate::reads::{item_at, set_item};
use base_lists::Memory;
use std::alloc::Global;
use std::marker::Model;

/// For each variable whether it was met, those that were, and the literals of the clause. Takes 9 bytes a variable.
#[derive(Drop)]
pub struct Seen {
    flags: Vec<bool>,
    met: Vec<Variable>,
    clause: Vec<Literal>,
}

impl Model for Seen {
    ghost use Rattle.sat_watches.specs.Seen.{SeenView};

    ghost Value = { SeenView };

    ghost view = { λ s. record { flags = s.flags.items; met = s.met.items; clause = s.clause.items } };
}

impl Seen {
    /// No variables.
    pub fn new(alloc: Global) -> Seen
        ensures { result ≡ none_met 0 }
    {
        Seen {
            flags: Vec::new(alloc),
            met: Vec::new(alloc),
            clause: Vec::new(alloc),
        }
    }

    /// No variables any more, and an empty clause.
    pub fn clear(&mut self)
        ensures { self.new ≡ none_met 0 }
    {
        self.flags.clear();
        self.met.clear();
        self.clause.clear();
    }

    /// So many variables, that weren't met, and an empty clause.
    pub fn start(&mut self, vars: usize) -> Result<(), Memory>
        ensures ok { OnOk result (self.new ≡ none_met vars) }
        ensures err { OnErr result (self.new ≡ none_met 0) }
    {
        self.clear();
        self.flags.resize(vars, false)?;
        Ok(())
    }

    /// One more variable, that wasn't met.
    pub fn add(&mut self) -> Result<(), Memory>
        ensures ok { OnOk result (self.new ≡ record self.old { flags = self.old.flags ++ false ∷ [] }) }
        ensures err { OnErr result (self.new ≡ self.old) }
    {
        self.flags.push(false)?;
        Ok(())
    }

    /// Nothing is met, and the clause is empty.
    pub fn forget(&mut self)
        ensures { self.new ≡ forgotten self.old }
    {
        'met: for k in 0..self.met.len() {
            let variable = item_at(&self.met, k, Variable { number: 0 });
            set_item(&mut self.flags, variable.index(), false);
        }
        self.met.clear();
        self.clause.clear();
    }

    /// Whether a variable was met.
    pub fn is_met(&self, variable: Variable) -> bool
        ensures { result ≡ slice_index_or self.now.flags variable.number false }
    {
        item_at(&self.flags, variable.index(), false)
    }

    /// A variable is met.
    pub fn meet(&mut self, variable: Variable) -> Result<(), Memory>
        ensures ok { OnOk result (self.new ≡ with_met self.old variable) }
        ensures err { OnErr result (self.new ≡ self.old) }
    {
        self.met.push(variable)?;
        set_item(&mut self.flags, variable.index(), true);
        Ok(())
    }

    /// The literals of the clause.
    pub fn clause(&self) -> &[Literal]
        ensures { result.now ≡ self.now.clause }
    {
        self.clause.as_slice()
    }

    /// Literal k of the clause.
    pub fn literal(&self, k: usize) -> Literal
        ensures { result ≡ slice_index_or self.now.clause k no_literal }
    {
        item_at(&self.clause, k, Literal::none())
    }

    /// One literal more.
    pub fn push(&mut self, literal: Literal) -> Result<(), Memory>
        ensures ok { OnOk result (self.new ≡ record self.old { clause = self.old.clause ++ literal ∷ [] }) }
        ensures err { OnErr result (self.new ≡ self.old) }
    {
        self.clause.push(literal)?;
        Ok(())
    }

    /// Literal k is this now.
    pub fn set(&mut self, k: usize, literal: Literal)
        ensures { self.new ≡ record self.old { clause = slice_set self.old.clause k literal } }
    {
        set_item(&mut self.clause, k, literal);
    }

    /// Only the first literals stay.
    pub fn keep(&mut self, count: usize)
        ensures { self.new ≡ record self.old { clause = take count self.old.clause } }
    {
        self.clause.truncate(count);
    }
}
