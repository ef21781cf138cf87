//! What has to be looked at anew in a moment where a net is written or a variable is recorded.

ghost use Rattle.std.specs.Prelude.{◌<◌, ◌≤◌, ◌^◌, All, IfOk, IfSome, OnOk, length};
ghost use Rattle.replay_fans.specs.Readings.{AppendsReadings};
ghost use Rattle.recording_binding.specs.Binding.{FitsBinding};
ghost use Rattle.recording_binding.specs.Bounds.{IsOf};
ghost use Rattle.replay_history.specs.Sides.{AreSides};
ghost use Rattle.replay_history.specs.Watched.{AreBitReaders, AreBitsWithin, AreNumbers, AreWatchers};
ghost use Rattle.replay_due.specs.Readers.{IsReaderTable};

use crate::sides::Sides;
use base_lists::Memory;
use design_circuit::width_of;
use recording_binding::{Binding, Bound};
use recording_moments::ChangesByMoment;
use recording_reader::Recording;
use replay_due::{Readers, Reading};
use replay_fans::{push_net, register_readers};
use std::alloc::Global;

const MOST_BOUND: usize = 1 << 20;

const MOST_BITS: usize = 1 << 32;

/// The registers that look back at each net, and the bound variables that have it among their bits; the changes of a
/// recording by moment, and for each of its variables the number among the bound ones. No net and no such number is as
/// great as `room`.
#[derive(Drop)]
pub struct Watchers<'a> {
    pub room: usize,
    pub registers: Readers,
    pub variables: Readers,
    pub changes: ChangesByMoment<'a>,
    pub numbers: Vec<Option<u32>>,
}

impl<'a> Watchers<'a> {
    /// Those of a comparison; none where a variable is bound twice, or there are more than 2^20 bound variables. Takes
    /// 16 bytes for each net, 8 for each variable of the recording and each moment, and 4 for each change of the
    /// recording, each pin of a register and each bound bit; on the way 16 more for each of these. With more than 2^32
    /// bound bits it answers `Memory`.
    pub fn of(
        alloc: Global,
        sides: &Sides<'a>,
        bound: &Binding,
    ) -> Result<Option<Watchers<'a>>, Memory>
        requires sides { AreSides sides.now }
        requires bound { FitsBinding sides.now.circuit.design.now bound.now }
        requires recorded { All (IsOf sides.now.recording.now) bound.now.bound }
        ensures { IfOk result (λ found. IfSome found (AreWatchers sides.now bound.now)) }
    {
        let count = bound.bound.as_slice().len();
        if count > MOST_BOUND {
            return Ok(None);
        }
        let room = width_of(&sides.circuit).max(count);
        let Some(numbers) = numbers_of(alloc, sides.recording, bound)? else {
            return Ok(None);
        };
        let registers = register_readers(alloc, &sides.circuit)?;
        let variables = bit_readers(alloc, room, bound)?;
        let changes = ChangesByMoment::new(alloc, sides.recording)?;
        Ok(Some(Watchers {
            room,
            registers,
            variables,
            changes,
            numbers,
        }))
    }
}

/// The number of each variable of a recording among the bound ones; none where one is bound twice.
fn numbers_of(
    alloc: Global,
    recording: &Recording,
    bound: &Binding,
) -> Result<Option<Vec<Option<u32>>>, Memory>
    requires few { length bound.now.bound ≤ 2 ^ 20 }
    requires recorded { All (IsOf recording.now) bound.now.bound }
    ensures { IfOk result (λ found. IfSome found (λ numbers. AreNumbers recording.now bound.now numbers.items)) }
{
    let mut numbers = vec![in alloc; None; recording.variables().len()]?;
    'variables: for (number, variable) in bound.bound.as_slice().iter().enumerate() {
        let place = variable.variable as usize;
        if numbers[place].is_some() {
            return Ok(None);
        }
        numbers[place] = Some(number as u32);
    }
    Ok(Some(numbers))
}

/// For each net the numbers of the bound variables that have it among their bits, with nets and numbers below a number.
/// Takes 8 bytes for each of these and 4 for each bit, and on the way 16 more for each. With more than 2^32 bits it
/// answers `Memory`.
pub fn bit_readers(alloc: Global, room: usize, bound: &Binding) -> Result<Readers, Memory>
    requires small { room ≤ 2 ^ 20 }
    requires few { length bound.now.bound ≤ room }
    requires within { AreBitsWithin room bound.now }
    ensures table { IfOk result (IsReaderTable room) }
    ensures has { IfOk result (AreBitReaders bound.now) }
{
    let mut readings = Vec::new(alloc);
    'variables: for (number, variable) in bound.bound.as_slice().iter().enumerate() {
        push_bits(variable, number as u32, &mut readings)?;
    }
    if readings.len() > MOST_BITS {
        return Err(Memory);
    }
    Ok(Readers::new(alloc, room, readings.as_slice())?)
}

fn push_bits(variable: &Bound, number: u32, readings: &mut Vec<Reading>) -> Result<(), Memory>
    ensures { OnOk result (AppendsReadings readings.old.items readings.new.items number variable.now.bits) }
{
    'nets: for net in variable.bits.as_slice() {
        push_net(*net, number, readings)?;
    }
    Ok(())
}
