//! What becomes due in the rounds of a moment: the bits whose nets are written in them.

ghost use Rattle.std.specs.Prelude.{◌≡◌, ◌+◌, ◌-◌, ◌*◌, ◌<◌, true, length, slice_index};
ghost use Rattle.design_circuit.specs.Settled.{last_step};
ghost use Rattle.replay_fans.specs.Marks.{OnlyMore};
ghost use Rattle.replay_due.specs.Due.{GainsAll, HasRoomFor};
ghost use Rattle.replay_due.specs.Readers.{readers_of};
ghost use Rattle.report_bits.specs.Marked as spec;
ghost use Rattle.report_bits.specs.Marked.{AreBitNets, KnownUnlessDue, SameUnlessDue};
ghost use Rattle.wave_proved.specs.Contents.{IsFinished, job};

use crate::ends::is_still;
use crate::nets::BitNets;
use design_circuit::width_of;
use replay_due::Due;
use replay_fans::mark_all;
use replay_history::mark_changes;
use wave_proved::Wave;

/// Each bit becomes due of which x or z is recorded in a moment behind the first, where each was due of which it is in
/// the moment before. False where the history doesn't tell. Costs what the history writes in the moment.
pub fn mark_unknown(wave: &Wave<'_>, bits: &BitNets, moment: u32, due: &mut Due) -> bool
    requires later { 0 < moment }
    requires moment { moment < length wave.now.stim.times }
    requires bits { AreBitNets (length wave.now.design.nets) bits.now }
    requires room { HasRoomFor due.old bits.now.room }
    requires before { KnownUnlessDue wave.now bits.now.nets.items (last_step (job wave.now) (moment - 1)) due.old }
    ensures long { length due.new ≡ length due.old }
    ensures known { result ≡ true →
        KnownUnlessDue wave.now bits.now.nets.items (last_step (job wave.now) moment) due.new }
{
    // With it comes the fact that the history has the places of the wave.
    wave.recall();
    let rounds = wave.stim().rounds;
    let first = moment as usize * rounds as usize;
    'rounds: for round in 0..rounds {
        if !mark_written(wave, bits, first + round as usize, due) {
            return false;
        }
    }
    true
}

/// Each bit becomes due whose net hasn't in a moment behind the first what it has in the moment before. False where the
/// history doesn't tell. Costs what the history and the wave write in the moment.
pub fn mark_told(wave: &Wave<'_>, bits: &BitNets, moment: u32, due: &mut Due) -> bool
    requires finished { IsFinished wave.now }
    requires later { 0 < moment }
    requires moment { moment < length wave.now.stim.times }
    requires bits { AreBitNets (length wave.now.design.nets) bits.now }
    requires room { HasRoomFor due.old bits.now.room }
    ensures long { length due.new ≡ length due.old }
    ensures same { result ≡ true → SameUnlessDue wave.now bits.now.nets.items
        (last_step (job wave.now) (moment - 1)) (last_step (job wave.now) moment) due.new }
{
    // With it comes the fact that the history has the places of the wave.
    wave.recall();
    let rounds = wave.stim().rounds;
    let first = moment as usize * rounds as usize;
    'rounds: for round in 0..rounds {
        if !mark_step(wave, bits, first + round as usize, due) {
            return false;
        }
    }
    true
}

/// Each bit becomes due whose net is written at a step. False where the history doesn't tell.
fn mark_step(wave: &Wave<'_>, bits: &BitNets, step: usize, due: &mut Due) -> bool
    requires finished { IsFinished wave.now }
    requires later { 0 < step }
    requires step { step < length wave.now.stim.times * wave.now.stim.rounds }
    requires bits { AreBitNets (length wave.now.design.nets) bits.now }
    requires room { HasRoomFor due.old bits.now.room }
    ensures long { length due.new ≡ length due.old }
    ensures more { OnlyMore due.old due.new }
    ensures same { result ≡ true → SameUnlessDue wave.now bits.now.nets.items (step - 1) step due.new }
{
    mark_anew(wave, bits, step, due);
    mark_written(wave, bits, step, due)
}

/// Each bit becomes due of whose net the history may show something else than one step before. False where it doesn't
/// tell.
fn mark_written(wave: &Wave<'_>, bits: &BitNets, step: usize, due: &mut Due) -> bool
    requires later { 0 < step }
    requires step { step < length wave.now.stim.times * wave.now.stim.rounds }
    requires bits { AreBitNets (length wave.now.design.nets) bits.now }
    requires room { HasRoomFor due.old bits.now.room }
    ensures long { length due.new ≡ length due.old }
    ensures more { OnlyMore due.old due.new }
    ensures shown { result ≡ true → spec.ShownUnlessDue wave.now bits.now.nets.items step due.new }
{
    // With it comes the fact that the history has the places of the wave.
    wave.recall();
    match wave.replayed().written(step) {
        Some(changes) => {
            mark_changes(&bits.readers, bits.room, changes, due);
            true
        }
        None => is_still(wave.replayed(), step),
    }
}

/// Each bit becomes due at whose net's place the wave was written anew.
fn mark_anew(wave: &Wave<'_>, bits: &BitNets, step: usize, due: &mut Due)
    requires finished { IsFinished wave.now }
    requires later { 0 < step }
    requires step { step < length wave.now.stim.times * wave.now.stim.rounds }
    requires bits { AreBitNets (length wave.now.design.nets) bits.now }
    requires room { HasRoomFor due.old bits.now.room }
    ensures long { length due.new ≡ length due.old }
    ensures more { OnlyMore due.old due.new }
    ensures written { spec.WrittenUnlessDue wave.now bits.now.nets.items step due.new }
{
    let first = step * width_of(&wave.circuit());
    let places = wave.anew_at(step);
    'places: for anew in places {
        mark_position(wave, bits, anew.number() - first, due);
    }
}

/// The bits of the net at a position become due.
fn mark_position(wave: &Wave<'_>, bits: &BitNets, position: usize, due: &mut Due)
    requires position { position < length wave.now.design.nets }
    requires bits { AreBitNets (length wave.now.design.nets) bits.now }
    requires room { HasRoomFor due.old bits.now.room }
    ensures long { length due.new ≡ length due.old }
    ensures gains { GainsAll due.old due.new (readers_of bits.now.readers (slice_index wave.now.order position)) }
{
    let net = wave.circuit().order.net(position as u32);
    mark_all(&bits.readers, net as usize, bits.room, due);
}
