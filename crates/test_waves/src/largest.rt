//! Jobs at the bound of 2^27 places.

ghost use Rattle.design_circuit.specs.Design.{FitsDesign};

use crate::asserted::{holds, same};
use base_lists::{put, put_number};
use cmd_job::{PLACES, read_netlist};
use design_circuit::{Bytes, Design};
use recording_binding::{BindErr, Binding, bind};
use recording_reader::{Recording, read_vcd};
use std::alloc::Global;
use std::process::Abort;
use std::test::Fail;

/// 2^10 nets, all inputs, which have 2^14 places a moment.
const NETS: &[u8] = b"module m(a); input [1023:0] a; endmodule";

const ROUNDS: u32 = 16;

/// They are x at so many moments.
fn text_of(alloc: Global, moments: u64) -> Result<Vec<u8>, Fail> {
    let mut text = Vec::new(alloc);
    put(
        &mut text,
        b"$scope module t $end $var wire 1024 ! a [1023:0] $end $enddefinitions $end",
    )?;
    for time in 0..moments {
        put(&mut text, b" #")?;
        put_number(&mut text, time)?;
    }
    put(&mut text, b" bx !")?;
    Ok(text)
}

fn recording_of(alloc: Global, moments: u64) -> Result<Recording, Fail> {
    let text = text_of(alloc, moments)?;
    if text.len() > 1 << 28 {
        return Err(Fail::new("the text is longer than 2^28 bytes"));
    }
    Ok(read_vcd(alloc, text.as_slice())?)
}

fn bound(alloc: Global, design: &Design, moments: u64) -> Result<Result<Binding, BindErr>, Fail>
    requires { FitsDesign design.now }
{
    let recording = recording_of(alloc, moments)?;
    let scope = [Bytes::from_vec(b"t".to_vec(alloc)?)];
    Ok(bind(alloc, design, &recording, &scope, ROUNDS, PLACES))
}

fn check_bound(rt: &impl Abort, alloc: Global, design: &Design) -> Result<(), Fail>
    requires { FitsDesign design.now }
{
    holds(rt, "the nets", design.nets.as_slice().len() == 1024);
    match bound(alloc, design, 8192)? {
        Ok(binding) => same(rt, "variables", binding.bound.as_slice().len(), 1),
        Err(_) => return Err(Fail::new("2^27 places are refused")),
    }
    match bound(alloc, design, 8193)? {
        Ok(_) => Err(Fail::new("more than 2^27 places are bound")),
        Err(refusal) => {
            same(
                rt,
                "the refusal",
                refusal,
                BindErr::TooLarge { places: 134234112 },
            );
            Ok(())
        }
    }
}

#[test]
fn most_places_are_bound(rt: HostRuntime) -> Result<(), Fail> {
    let netlist = read_netlist(rt.alloc(), NETS, "m")?;
    check_bound(&rt, rt.alloc(), &netlist.design)
}
