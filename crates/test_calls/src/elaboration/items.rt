//! Names and expressions of a module.

use base_lists::Items;
use elab_names::{Here, Scope};
use elab_nets::Nets;
use netlist_grammar::{Expr, Part, PartKind, Word};
use std::alloc::{AllocError, Global};

/// A plain name, at byte 7.
pub fn word(alloc: Global, text: &[u8]) -> Result<Word, AllocError> {
    Ok(Word {
        text: Items::from_vec(text.to_vec(alloc)?),
        escaped: false,
        at: 7,
    })
}

/// An expression of one part.
pub fn expr(alloc: Global, what: PartKind) -> Result<Expr, AllocError> {
    Ok(Expr {
        at: 7,
        parts: Items::from_vec(vec![in alloc; Part { at: 7, what }]?),
    })
}

/// The net `a`.
pub fn net_a(alloc: Global) -> Result<Expr, AllocError> {
    expr(alloc, PartKind::Whole(word(alloc, b"a")?))
}

/// The bit 0.
pub fn zero(alloc: Global) -> Result<Expr, AllocError> {
    expr(alloc, PartKind::Literal(1, 0))
}

/// At the top, in which no name is declared and no net is made.
pub fn top<'t>(alloc: Global) -> Here<'t> {
    Here {
        alloc,
        scope: Scope::new(alloc, Items::from_vec(Vec::new(alloc))),
        nets: Nets::new(alloc),
    }
}
