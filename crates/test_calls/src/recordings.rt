//! Changes, codes and recordings.

use design_cell::Value;
use recording_changes::Changes;
use recording_codes::Codes;
use recording_reader::{Cursor, read_vcd};
use std::test::Fail;

#[test]
fn a_change_is_kept(rt: HostRuntime) -> Result<(), Fail> {
    let mut changes = Changes::new(rt.alloc())?;
    changes.open(rt.alloc())?;
    changes.add(0, 3, b"1x")?;
    assert_eq!(rt; changes.value(0, 2, 0, 3), Value::One);
    Ok(())
}

#[test]
fn a_code_is_kept(rt: HostRuntime) -> Result<(), Fail> {
    let mut codes = Codes::new(rt.alloc());
    codes.add(b"!", 1, false)?;
    assert_eq!(rt; codes.len(), 1);
    Ok(())
}

#[test]
fn a_recording_is_read(rt: HostRuntime) -> Result<(), Fail> {
    let recording = read_vcd(rt.alloc(), b"$enddefinitions $end #5")?;
    let cursor = Cursor::new(rt.alloc(), &recording)?;
    assert_eq!(rt; cursor.recording().times(), [5].as_slice());
    Ok(())
}
