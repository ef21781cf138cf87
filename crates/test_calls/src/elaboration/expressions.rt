//! The bits of expressions.

use crate::elaboration::items::{expr, top, word};
use elab_bits::{Role, Runs, bits_of, name_bits};
use elab_names::Here;
use netlist_grammar::{Expr, PartKind, Word};
use std::alloc::Global;
use std::process::Abort;
use std::test::Fail;

/// What has bits.
#[derive(Drop)]
enum Wide {
    Expression(Expr),
    Name(Word),
}

/// The bits are so many.
fn check_bits<'t>(
    rt: &impl Abort,
    here: &mut Here<'t>,
    wide: &'t Wide,
    width: usize,
) -> Result<(), Fail> {
    let bits = match wide {
        Wide::Expression(expr) => bits_of(here, Role::Taken, expr)?,
        Wide::Name(word) => name_bits(here, Role::Driven, word)?,
    };
    assert!(rt; bits.has_width(width));
    Ok(())
}

/// The same where no name is declared.
fn check_width(rt: &impl Abort, alloc: Global, wide: &Wide, width: usize) -> Result<(), Fail> {
    let mut here = top(alloc);
    check_bits(rt, &mut here, wide, width)
}

#[test]
fn literal_has_its_bits(rt: HostRuntime) -> Result<(), Fail> {
    let alloc = rt.alloc();
    let wide = Wide::Expression(expr(alloc, PartKind::Literal(3, 6))?);
    check_width(&rt, alloc, &wide, 3)
}

#[test]
fn name_is_a_wire(rt: HostRuntime) -> Result<(), Fail> {
    let alloc = rt.alloc();
    let wide = Wide::Name(word(alloc, b"a")?);
    check_width(&rt, alloc, &wide, 1)
}

#[test]
fn nets_are_counted(rt: HostRuntime) -> Result<(), Fail> {
    let bits = Runs::of_nets(rt.alloc(), 7, 4, 9)?;
    assert!(rt; bits.has_width(9));
    Ok(())
}
