//! Which steps of a pin each symbol stands for.

ghost use Rattle.std.specs.Prelude.{◌<◌};

use crate::cells::tables::row_of;
use design_cell::{Symbol, Udp, Value};
use std::alloc::Global;
use std::process::Abort;
use std::test::Fail;

/// Whether a row of the symbol matches the steps 00 01 0x 10 11 1x x0 x1 xx, a `1` for each that it matches. z is as
/// good as x.
fn check_steps(rt: &impl Abort, alloc: Global, symbol: Symbol, want: [u8; 9]) -> Result<(), Fail> {
    let row = row_of(alloc, &[symbol], Some(b'?'), b'1')?;
    let table = Udp::build(alloc, true, 1, &[row], Value::Zero)?;
    check_table(rt, &table, symbol, &want);
    Ok(())
}

/// The same of the table that has the row alone.
fn check_table(rt: &impl Abort, table: &Udp, symbol: Symbol, want: &[u8; 9]) {
    for old in 0..4 {
        for new in 0..4 {
            let step = 3 * (if old == 3 { 2 } else { old }) + (if new == 3 { 2 } else { new });
            let matches = matches_step(rt, table, old, new);
            assert_eq!(rt;
                matches,
                want[step] == b'1',
                "{symbol:?} from {old} to {new}"
            );
        }
    }
}

/// Whether the row matches a step from one of 0, 1, x and z to another.
fn matches_step(rt: &impl Abort, table: &Udp, old: usize, new: usize) -> bool
    requires old { old < 4 }
    requires new { new < 4 }
{
    let values = [Value::Zero, Value::One, Value::X, Value::Z];
    assert!(rt; table.sequential() && table.inputs() == 1);
    table.change(&[values[new]], 0, values[old], Value::Zero) == Value::One
}

#[test]
fn letters_stand_for_values(rt: HostRuntime) -> Result<(), Fail> {
    let rows = [
        (b'0', *b"100100100"),
        (b'1', *b"010010010"),
        (b'x', *b"001001001"),
        (b'X', *b"001001001"),
        (b'?', *b"111111111"),
        (b'b', *b"110110110"),
        (b'B', *b"110110110"),
    ];
    for (letter, want) in rows {
        check_steps(&rt, rt.alloc(), Symbol::Single(letter), want)?;
    }
    Ok(())
}

#[test]
fn letters_stand_for_changes(rt: HostRuntime) -> Result<(), Fail> {
    let rows = [
        (b'r', *b"010000000"),
        (b'R', *b"010000000"),
        (b'f', *b"000100000"),
        (b'F', *b"000100000"),
        (b'p', *b"011000010"),
        (b'P', *b"011000010"),
        (b'n', *b"000101100"),
        (b'N', *b"000101100"),
        (b'*', *b"011101110"),
    ];
    for (letter, want) in rows {
        check_steps(&rt, rt.alloc(), Symbol::Single(letter), want)?;
    }
    Ok(())
}

#[test]
fn pairs_stand_for_changes(rt: HostRuntime) -> Result<(), Fail> {
    let rows = [
        (b'0', b'1', *b"010000000"),
        (b'0', b'x', *b"001000000"),
        (b'1', b'0', *b"000100000"),
        (b'X', b'1', *b"000000010"),
        (b'0', b'0', *b"000000000"),
        (b'?', b'1', *b"010000010"),
        (b'1', b'?', *b"000101000"),
        (b'x', b'?', *b"000000110"),
        (b'b', b'?', *b"011101000"),
        (b'?', b'B', *b"010100110"),
        (b'b', b'b', *b"010100000"),
        (b'B', b'X', *b"001001000"),
        (b'?', b'?', *b"011101110"),
    ];
    for (from, to, want) in rows {
        check_steps(&rt, rt.alloc(), Symbol::Change(from, to), want)?;
    }
    Ok(())
}
