//! What a cell and a register of a design give.

use crate::asserted::{holds, same};
use cmd_job::read_netlist;
use design_cell::{Gate, Value};
use design_circuit::{Design, Driver, Table};
use std::process::Abort;
use std::test::Fail;

/// A flip-flop, and an `and` of its data and its clock.
const FLIP_FLOP: &[u8] = b"primitive dff(q, d, ck); output q; reg q; input d, ck; table
0 r : ? : 0; 1 r : ? : 1; ? n : ? : -; * ? : ? : -; endtable endprimitive
module m(d, ck, q, y); input d, ck; output q, y; dff (q, d, ck); and (y, d, ck); endmodule";

fn check_cell(rt: &impl Abort, design: &Design, pins: [Value; 2], want: Value) -> Result<(), Fail> {
    match design.nets.as_slice() {
        [_, _, _, y] => match &y.driver {
            Driver::Cell(Table::Gate(Gate::And), _) => {
                same(rt, "the cell", design.cell_value(3, &pins), want);
                Ok(())
            }
            _ => Err(Fail::new("it isn't an and gate")),
        },
        _ => Err(Fail::new("there aren't four nets")),
    }
}

/// Compares what the flip-flop keeps when its data and its clock go from old values to new ones.
fn check_register(
    rt: &impl Abort,
    design: &Design,
    old: [Value; 2],
    new: [Value; 2],
    want: Value,
) -> Result<(), Fail> {
    match (design.nets.as_slice(), design.udps.as_slice()) {
        ([_, _, q, _], [dff]) => match &q.driver {
            Driver::Register(latching) => {
                holds(
                    rt,
                    "a register",
                    dff.sequential() && dff.inputs() == 2 && latching.udp == 0,
                );
                let kept = design.register_value(2, &old, &new, Value::X);
                same(rt, "the register", kept, want);
                Ok(())
            }
            _ => Err(Fail::new("it isn't a register")),
        },
        _ => Err(Fail::new("there aren't four nets and one primitive")),
    }
}

#[test]
fn cells_and_registers_have_their_tables(rt: HostRuntime) -> Result<(), Fail> {
    let netlist = read_netlist(rt.alloc(), FLIP_FLOP, "m")?;
    let (zero, one, x) = (Value::Zero, Value::One, Value::X);
    check_cell(&rt, &netlist.design, [one, one], one)?;
    check_cell(&rt, &netlist.design, [zero, x], zero)?;
    check_cell(&rt, &netlist.design, [one, Value::Z], x)?;
    // the clock goes before the data, which it takes as it was
    check_register(&rt, &netlist.design, [one, zero], [zero, one], one)?;
    check_register(&rt, &netlist.design, [zero, zero], [zero, one], zero)?;
    // an edge to x matches no row
    check_register(&rt, &netlist.design, [zero, zero], [zero, x], x)
}
