//! The primitives of the tests.

use base_lists::Items;
use design_cell::{RawRow, Symbol};
use std::alloc::{AllocError, Global};

/// A row whose entries are letters.
pub fn row(
    alloc: Global,
    letters: &[u8],
    state: Option<u8>,
    output: u8,
) -> Result<RawRow, AllocError> {
    let mut entries = Vec::new(alloc);
    for letter in letters {
        entries.push(Symbol::Single(*letter))?;
    }
    Ok(RawRow {
        entries: Items::from_vec(entries),
        state: state.map(Symbol::Single),
        output: Symbol::Single(output),
    })
}

/// A row with any entries.
pub fn row_of(
    alloc: Global,
    entries: &[Symbol],
    state: Option<u8>,
    output: u8,
) -> Result<RawRow, AllocError> {
    Ok(RawRow {
        entries: Items::from_vec(Vec::from_slice(alloc, entries)?),
        state: state.map(Symbol::Single),
        output: Symbol::Single(output),
    })
}

/// Rows of letters with one state's symbol.
pub fn rows_of(
    alloc: Global,
    table: &[(&[u8], u8)],
    state: Option<u8>,
) -> Result<Vec<RawRow>, AllocError> {
    let mut rows = Vec::new(alloc);
    for (letters, output) in table {
        rows.push(row(alloc, letters, state, *output)?)?;
    }
    Ok(rows)
}

/// A flip-flop: data, clock.
pub fn dff(alloc: Global) -> Result<Vec<RawRow>, AllocError> {
    let table: [(&[u8], u8); 4] = [(b"0r", b'0'), (b"1r", b'1'), (b"?n", b'-'), (b"*?", b'-')];
    rows_of(alloc, &table, Some(b'?'))
}

/// The same, which keeps its state at an edge from or to x where the data equals it.
pub fn dffp(alloc: Global) -> Result<Vec<RawRow>, AllocError> {
    let mut rows = dff(alloc)?;
    for (from, to, bit) in [
        (b'0', b'x', b'0'),
        (b'0', b'x', b'1'),
        (b'x', b'1', b'0'),
        (b'x', b'1', b'1'),
    ] {
        let entries = [Symbol::Single(bit), Symbol::Change(from, to)];
        rows.push(row_of(alloc, &entries, Some(bit), bit)?)?;
    }
    Ok(rows)
}

/// A scan flip-flop: clock, data, scan data, scan enable, reset, set, notifier.
pub fn scan_dff(alloc: Global) -> Result<Vec<RawRow>, AllocError> {
    let table: [(&[u8], u8); 13] = [
        (b"????0??", b'0'),
        (b"????10?", b'1'),
        (b"r0?011?", b'0'),
        (b"r1?011?", b'1'),
        (b"r?0111?", b'0'),
        (b"r?1111?", b'1'),
        (b"n???11?", b'-'),
        (b"?*??11?", b'-'),
        (b"??*?11?", b'-'),
        (b"???*11?", b'-'),
        (b"????r1?", b'-'),
        (b"????1r?", b'-'),
        (b"??????*", b'x'),
    ];
    rows_of(alloc, &table, Some(b'?'))
}

/// A latch: data, gate, open at 0.
pub fn latch(alloc: Global) -> Result<Vec<RawRow>, AllocError> {
    let table: [(&[u8], u8); 3] = [(b"00", b'0'), (b"10", b'1'), (b"?1", b'-')];
    rows_of(alloc, &table, Some(b'?'))
}

/// A multiplexer: two data, select.
pub fn mux(alloc: Global) -> Result<Vec<RawRow>, AllocError> {
    let table: [(&[u8], u8); 6] = [
        (b"0?0", b'0'),
        (b"1?0", b'1'),
        (b"?01", b'0'),
        (b"?11", b'1'),
        (b"00x", b'0'),
        (b"11X", b'1'),
    ];
    rows_of(alloc, &table, None)
}
