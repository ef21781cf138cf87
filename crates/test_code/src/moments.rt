//! Recordings in which every input is x in every moment.

use base_lists::{Memory, put, put_number};
use design_circuit::{Design, Driver, Name};
use std::alloc::Global;

/// The recording of a design with moments at these times, in the scope `dut`.
pub fn recording_of(alloc: Global, design: &Design, times: &str) -> Result<Vec<u8>, Memory> {
    let mut vcd = Vec::new(alloc);
    put(&mut vcd, b"$scope module dut $end\n")?;
    put_inputs(&mut vcd, design)?;
    put(&mut vcd, b"$upscope $end\n$enddefinitions $end\n")?;
    for time in times.split(' ') {
        put(&mut vcd, b"#")?;
        put(&mut vcd, time.as_bytes())?;
        put(&mut vcd, b"\n")?;
    }
    Ok(vcd)
}

fn put_inputs(vcd: &mut Vec<u8>, design: &Design) -> Result<(), Memory> {
    for (number, net) in design.nets.as_slice().iter().enumerate() {
        if matches!(net.driver, Driver::Input) {
            put(vcd, b"$var wire 1 ")?;
            put_number(vcd, number as u64)?;
            put_reference(vcd, &net.path)?;
            put(vcd, b" $end\n")?;
        }
    }
    Ok(())
}

/// Puts the name of a net of the top, as an escaped one, and its index as a word of its own.
fn put_reference(vcd: &mut Vec<u8>, name: &Name) -> Result<(), Memory> {
    for part in name.parts.as_slice() {
        put(vcd, b" \\")?;
        put(vcd, part.text.as_slice())?;
    }
    if let Some(index) = name.bit {
        put(vcd, b" [")?;
        put_number(vcd, u64::from(index))?;
        put(vcd, b"]")?;
    }
    Ok(())
}
