//! Recordings in short: `#10 ck=1 d=x` for each moment, the first with all nets. A net's code is its name.

use crate::words::first_word;
use std::alloc::{AllocError, Global};
use std::fmt::Write;

/// Gives a recording the text that short lines stand for.
pub fn put_vcd(alloc: Global, recording: &mut Vec<u8>, short: &str) -> Result<(), AllocError> {
    let mut vcd = String::new(alloc);
    put_text(&mut vcd, short)?;
    recording.clear();
    recording.extend_from_slice(vcd.as_str().as_bytes())
}

fn put_text(vcd: &mut String, short: &str) -> Result<(), AllocError> {
    let (first, _) = short.split_once('\n').unwrap_or((short, ""));
    vcd.push_str("$scope module dut $end\n")?;
    put_variables(vcd, first)?;
    vcd.push_str("$upscope $end\n$enddefinitions $end\n")?;
    for line in short.split('\n') {
        put_moment(vcd, line)?;
    }
    Ok(())
}

fn put_variables(vcd: &mut String, line: &str) -> Result<(), AllocError> {
    let (_, changes) = first_word(line);
    for change in changes.split(' ') {
        put_variable(vcd, net_and_value(change).0)?;
    }
    Ok(())
}

fn put_variable(vcd: &mut String, net: &str) -> Result<(), AllocError> {
    write!(vcd, "$var wire 1 {net} {net} $end\n")
}

/// The time, and the changes.
fn put_moment(vcd: &mut String, line: &str) -> Result<(), AllocError> {
    let (time, changes) = first_word(line);
    write!(vcd, "{time}\n")?;
    for change in changes.split(' ') {
        put_change(vcd, change)?;
    }
    Ok(())
}

fn put_change(vcd: &mut String, change: &str) -> Result<(), AllocError> {
    let (net, value) = net_and_value(change);
    write!(vcd, "{value}{net}\n")
}

/// The sides of `ck=1`.
fn net_and_value(change: &str) -> (&str, &str) {
    change.split_once('=').unwrap_or((change, ""))
}
