//! The bound variables that a step of a wave may show otherwise than the one before.

ghost use Rattle.std.specs.Prelude.{◌≡◌, ◌-◌, ◌<◌, length, slice_index};
ghost use Rattle.design_circuit.specs.Circuit.{job_in};
ghost use Rattle.replay_fans.specs.Marks.{OnlyMore};
ghost use Rattle.recording_writer.specs.Readers.{FitsReaders, KeepLetters};
ghost use Rattle.recording_writer.specs.Steps.{HasStep};
ghost use Rattle.replay_history.specs.Watched.{AreReadersDue};
ghost use Rattle.replay_due.specs.Due.{HasRoomFor};
ghost use Rattle.recording_shown.specs.History.{shown_history};
ghost use Rattle.wave_proved.specs.Contents.{IsFinished, job};

use design_circuit::{Circuit, width_of};
use recording_writer::BitReaders;
use replay_due::Due;
use replay_fans::mark_all;
use wave_proved::Wave;

/// The bound variables become due that have a bit whose place a finished wave wrote anew at a step.
pub fn mark_anew(wave: &Wave<'_>, readers: &BitReaders, step: usize, due: &mut Due)
    requires finished { IsFinished wave.now }
    requires readers { FitsReaders (job wave.now).width readers.now }
    requires later { 0 < step }
    requires step { HasStep (shown_history wave.now) step }
    requires room { HasRoomFor due.old readers.now.room }
    ensures long { length due.new ≡ length due.old }
    ensures more { OnlyMore due.old due.new }
    ensures kept { KeepLetters (shown_history wave.now) readers.now.table (step - 1) step due.new }
{
    let circuit = wave.circuit();
    let start = step * width_of(&circuit);
    let anew = wave.anew_at(step);
    'places: for place in anew {
        mark_position(&circuit, readers, place.number() - start, due);
    }
}

/// The bound variables become due that have the net at a position among their bits.
fn mark_position(circuit: &Circuit<'_>, readers: &BitReaders, position: usize, due: &mut Due)
    requires readers { FitsReaders (job_in circuit.now).width readers.now }
    requires position { position < (job_in circuit.now).width }
    requires room { HasRoomFor due.old readers.now.room }
    ensures long { length due.new ≡ length due.old }
    ensures more { OnlyMore due.old due.new }
    ensures due { AreReadersDue readers.now.table (slice_index (job_in circuit.now).order position) due.new }
{
    let net = circuit.order.net(position as u32);
    mark_all(&readers.table, net as usize, readers.room, due);
}
