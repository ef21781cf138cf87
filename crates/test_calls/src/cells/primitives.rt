//! Primitives by their tables, with answers by hand.

use crate::cells::tables::{dff, dffp, latch, mux, row, rows_of, scan_dff};
use design_cell::{RawRow, Udp, UdpErr, Value};
use std::alloc::Global;
use std::process::Abort;
use std::test::Fail;

fn check_refusal(
    rt: &impl Abort,
    alloc: Global,
    sequential: bool,
    inputs: usize,
    rows: &[RawRow],
    want: UdpErr,
) {
    assert!(rt; inputs > 0);
    match Udp::build(alloc, sequential, inputs, rows, Value::X) {
        Ok(_) => panic!(rt; "accepted, not {want:?}"),
        Err(refusal) => assert_eq!(rt; refusal, want),
    }
}

#[test]
fn refused_rows(rt: HostRuntime) -> Result<(), Fail> {
    let rows: [(bool, usize, &[u8], Option<u8>, u8, UdpErr); 13] = [
        (false, 11, b"00000000000", None, b'0', UdpErr::TooManyInputs),
        (
            true,
            10,
            b"0000000000",
            Some(b'?'),
            b'0',
            UdpErr::TooManyInputs,
        ),
        (false, 2, b"0", None, b'0', UdpErr::RowLength { row: 1 }),
        (
            false,
            2,
            b"00",
            Some(b'?'),
            b'0',
            UdpErr::RowLength { row: 1 },
        ),
        (true, 2, b"0r", None, b'0', UdpErr::RowLength { row: 1 }),
        (false, 1, b"0", None, b'-', UdpErr::BadSymbol { row: 1 }),
        (false, 1, b"r", None, b'1', UdpErr::BadSymbol { row: 1 }),
        (false, 1, b"-", None, b'1', UdpErr::BadSymbol { row: 1 }),
        (false, 1, b"z", None, b'1', UdpErr::BadSymbol { row: 1 }),
        (
            true,
            2,
            b"0r",
            Some(b'r'),
            b'0',
            UdpErr::BadSymbol { row: 1 },
        ),
        (
            true,
            2,
            b"0r",
            Some(b'?'),
            b'?',
            UdpErr::BadSymbol { row: 1 },
        ),
        (
            true,
            2,
            b"0-",
            Some(b'?'),
            b'0',
            UdpErr::BadSymbol { row: 1 },
        ),
        (
            true,
            2,
            b"rf",
            Some(b'?'),
            b'0',
            UdpErr::TwoEdges { row: 1 },
        ),
    ];
    for (sequential, inputs, letters, state, output, want) in rows {
        let row = row(rt.alloc(), letters, state, output)?;
        check_refusal(&rt, rt.alloc(), sequential, inputs, &[row], want);
    }
    Ok(())
}

/// Refuses a table of two rows and two inputs.
fn check_pair(
    rt: &impl Abort,
    alloc: Global,
    sequential: bool,
    first: &[u8],
    second: &[u8],
    want: UdpErr,
) -> Result<(), Fail> {
    let state = if sequential { Some(b'?') } else { None };
    let rows = rows_of(alloc, &[(first, b'0'), (second, b'1')], state)?;
    check_refusal(rt, alloc, sequential, 2, &rows, want);
    Ok(())
}

#[test]
fn refusals_in_order(rt: HostRuntime) -> Result<(), Fail> {
    check_pair(
        &rt,
        rt.alloc(),
        true,
        b"zz",
        b"0",
        UdpErr::RowLength { row: 2 },
    )?;
    check_pair(
        &rt,
        rt.alloc(),
        true,
        b"rf",
        b"0z",
        UdpErr::BadSymbol { row: 2 },
    )?;
    check_pair(
        &rt,
        rt.alloc(),
        true,
        b"0r",
        b"rf",
        UdpErr::TwoEdges { row: 2 },
    )?;
    check_pair(
        &rt,
        rt.alloc(),
        true,
        b"0r",
        b"?p",
        UdpErr::Conflict {
            first: 1,
            second: 2,
        },
    )?;
    check_pair(
        &rt,
        rt.alloc(),
        false,
        b"0?",
        b"?0",
        UdpErr::Conflict {
            first: 1,
            second: 2,
        },
    )
}

// `-` is the state of the case: it is no 1 at state 0.
#[test]
fn conflict_with_the_state(rt: HostRuntime) -> Result<(), Fail> {
    let mut rows = dff(rt.alloc())?;
    rows.push(row(rt.alloc(), b"1r", Some(b'1'), b'-')?)?;
    assert!(&rt; Udp::build(rt.alloc(), true, 2, &rows, Value::X).is_ok());
    rows.push(row(rt.alloc(), b"1r", Some(b'b'), b'-')?)?;
    check_refusal(
        &rt,
        rt.alloc(),
        true,
        2,
        &rows,
        UdpErr::Conflict {
            first: 2,
            second: 6,
        },
    );
    Ok(())
}

// Edges at two pins never come in one case, and a level row is no edge row.
#[test]
fn rows_without_conflict(rt: HostRuntime) -> Result<(), Fail> {
    let rows = rows_of(
        rt.alloc(),
        &[(b"r?", b'0'), (b"?r", b'1'), (b"1?", b'1')],
        Some(b'?'),
    )?;
    let Ok(table) = Udp::build(rt.alloc(), true, 2, &rows, Value::One) else {
        panic!(&rt; "refused");
    };
    assert_eq!(&rt; table.start(), Value::One);
    check_next(&rt, &table, 0, *b"00", *b"10", b'0', b'1');
    check_next(&rt, &table, 0, *b"00", *b"01", b'0', b'1');
    Ok(())
}

fn check_clock(rt: &impl Abort, table: &Udp, dead: u16, pin: usize, want: bool) {
    assert!(rt; table.sequential() && pin < table.inputs());
    assert_eq!(rt; table.is_clock(dead, pin), want, "pin {pin}");
}

/// Compares which pins are clock pins.
fn check_clocks(rt: &impl Abort, alloc: Global, rows: &[RawRow], dead: u16, want: &[bool]) {
    assert!(rt; !want.is_empty());
    let Ok(table) = Udp::build(alloc, true, want.len(), rows, Value::X) else {
        panic!(rt; "refused");
    };
    for (pin, is_clock) in want.iter().enumerate() {
        check_clock(rt, &table, dead, pin, *is_clock);
    }
}

#[test]
fn clock_pins(rt: HostRuntime) -> Result<(), Fail> {
    let alloc = rt.alloc();
    check_clocks(&rt, alloc, &dff(alloc)?, 0, &[false, true]);
    check_clocks(&rt, alloc, &dff(alloc)?, 2, &[false, false]);
    check_clocks(&rt, alloc, &dffp(alloc)?, 0, &[false, true]);
    check_clocks(
        &rt,
        alloc,
        &scan_dff(alloc)?,
        64,
        &[true, false, false, false, false, false, false],
    );
    check_clocks(&rt, alloc, &latch(alloc)?, 0, &[false, false]);
    Ok(())
}

/// The value of a letter.
fn value_of_letter(letter: u8) -> Value {
    match letter {
        b'0' => Value::Zero,
        b'1' => Value::One,
        b'z' => Value::Z,
        _ => Value::X,
    }
}

/// Compares the state after two pins go from their old letters to new ones.
fn check_next(
    rt: &impl Abort,
    table: &Udp,
    clocks: u16,
    old: [u8; 2],
    new: [u8; 2],
    q: u8,
    want: u8,
) {
    assert!(rt; table.sequential() && table.inputs() == 2);
    let old = [value_of_letter(old[0]), value_of_letter(old[1])];
    let new = [value_of_letter(new[0]), value_of_letter(new[1])];
    let found = table.next(clocks, &old, &new, value_of_letter(q));
    assert_eq!(rt; found.letter(), want);
}

#[test]
fn next_state(rt: HostRuntime) -> Result<(), Fail> {
    let flip_flop = dff(rt.alloc())?;
    let Ok(table) = Udp::build(rt.alloc(), true, 2, &flip_flop, Value::Zero) else {
        panic!(&rt; "refused");
    };
    assert_eq!(&rt; table.start(), Value::Zero);
    // the clock pins; the data and the clock before and after; the state before and after
    let rows = [
        (2, *b"00", *b"11", b'1', b'0'),
        (2, *b"10", *b"01", b'0', b'1'),
        (2, *b"10", *b"11", b'0', b'1'),
        (2, *b"11", *b"00", b'1', b'1'),
        (2, *b"00", *b"0x", b'1', b'x'),
        (2, *b"0x", *b"0z", b'1', b'1'),
        (2, *b"z1", *b"x1", b'0', b'0'),
        (2, *b"11", *b"11", b'z', b'z'),
        (2, *b"11", *b"01", b'z', b'x'),
        // without clock pins all go in port order
        (0, *b"00", *b"11", b'0', b'1'),
    ];
    for (clocks, old, new, q, want) in rows {
        check_next(&rt, &table, clocks, old, new, q, want);
    }
    Ok(())
}

/// Compares the value at three letters.
fn check_look(rt: &impl Abort, table: &Udp, letters: [u8; 3], want: u8) {
    let pins = letters.map(value_of_letter);
    assert!(rt; !table.sequential() && table.inputs() == 3);
    assert_eq!(rt; table.look(&pins).letter(), want, "{letters:?}");
}

// The data of the select where it is known, else the value on which both agree.
#[test]
fn look_by_hand(rt: HostRuntime) -> Result<(), Fail> {
    let rows = mux(rt.alloc())?;
    let Ok(table) = Udp::build(rt.alloc(), false, 3, &rows, Value::X) else {
        panic!(&rt; "refused");
    };
    let rows = [
        (*b"010", b'0'),
        (*b"011", b'1'),
        (*b"11z", b'1'),
        (*b"01x", b'x'),
        (*b"zx0", b'x'),
    ];
    for (letters, want) in rows {
        check_look(&rt, &table, letters, want);
    }
    Ok(())
}

/// Compares the row that gives the state after one pin went from an old letter to its letter in `letters`.
fn check_row(
    rt: &impl Abort,
    table: &Udp,
    letters: [u8; 2],
    pin: usize,
    old: u8,
    want: Option<usize>,
) {
    let pins = letters.map(value_of_letter);
    assert!(rt; table.sequential() && table.inputs() == 2 && pin < 2);
    let found = table.row_of_change(&pins, pin, value_of_letter(old), Value::Zero);
    assert_eq!(rt; found, want, "{letters:?} {pin}");
}

#[test]
fn rows_of_changes(rt: HostRuntime) -> Result<(), Fail> {
    let flip_flop = dff(rt.alloc())?;
    let Ok(table) = Udp::build(rt.alloc(), true, 2, &flip_flop, Value::X) else {
        panic!(&rt; "refused");
    };
    // the data and the clock, the pin that changed, and its letter before
    let rows = [
        (*b"01", 1, b'0', Some(1)),
        (*b"11", 1, b'0', Some(2)),
        (*b"x0", 1, b'1', Some(3)),
        (*b"10", 0, b'x', Some(4)),
        // an edge from 0 to x is no `r`
        (*b"0x", 1, b'0', None),
        // and no row has an unknown data at a rising edge
        (*b"x1", 1, b'0', None),
    ];
    for (letters, pin, old, want) in rows {
        check_row(&rt, &table, letters, pin, old, want);
    }
    Ok(())
}

// A level row decides before an edge row that matches too.
#[test]
fn level_rows_before_edge_rows(rt: HostRuntime) -> Result<(), Fail> {
    let rows = rows_of(rt.alloc(), &[(b"r?", b'0'), (b"1?", b'1')], Some(b'?'))?;
    let Ok(table) = Udp::build(rt.alloc(), true, 2, &rows, Value::X) else {
        panic!(&rt; "refused");
    };
    check_row(&rt, &table, *b"10", 0, b'0', Some(2));
    Ok(())
}
