//! What has a bit that a moment may show otherwise than the one before.

ghost use Rattle.std.specs.Prelude.{◌≡◌, ℕ, ◌-◌, ◌<◌, ◌^◌, true, length};
ghost use Rattle.design_circuit.specs.Settled as settled;
ghost use Rattle.replay_fans.specs.Marks.{OnlyMore};
ghost use Rattle.recording_writer.specs.Readers.{FitsReaders, KeepLettersIn};
ghost use Rattle.recording_writer.specs.Steps.{HasMoments};
ghost use Rattle.replay_due.specs.Due.{HasRoomFor};

use crate::readers::BitReaders;
use crate::shown::Shown;
use design_circuit::Stim;
use replay_due::Due;

/// The bound variables become due that have a bit whose net is written in a moment, and no others. False at the first
/// moment, and where the row doesn't tell what is written. Costs what is written.
pub fn mark_moment<R: Shown>(
    readers: &BitReaders,
    stim: &Stim,
    row: &R,
    moment: u32,
    due: &mut Due,
) -> bool
    requires readers { FitsReaders (R.view row.now).history.nets readers.now }
    requires moments { HasMoments (R.view row.now).history (length stim.now.times) stim.now.rounds }
    requires moment { moment < length stim.now.times }
    requires room { HasRoomFor due.old readers.now.room }
    ensures long { length due.new ≡ length due.old }
    ensures later { result ≡ true → 0 < moment }
    ensures kept { result ≡ true →
        KeepLettersIn (R.view row.now).history readers.now.table stim.now.rounds moment due.new }
{
    if moment == 0 {
        return false;
    }
    due.clear();
    mark_rounds(readers, stim, row, moment, due)
}

/// At a later moment the readers become due, beside what is due, of each net that is written in it. False where the row
/// doesn't tell what is written. Costs what is written.
pub fn mark_rounds<R: Shown>(
    readers: &BitReaders,
    stim: &Stim,
    row: &R,
    moment: u32,
    due: &mut Due,
) -> bool
    requires readers { FitsReaders (R.view row.now).history.nets readers.now }
    requires moments { HasMoments (R.view row.now).history (length stim.now.times) stim.now.rounds }
    requires later { 0 < moment }
    requires moment { moment < length stim.now.times }
    requires room { HasRoomFor due.old readers.now.room }
    ensures long { length due.new ≡ length due.old }
    ensures more { OnlyMore due.old due.new }
    ensures kept { result ≡ true →
        KeepLettersIn (R.view row.now).history readers.now.table stim.now.rounds moment due.new }
{
    let first = last_round(stim.rounds, moment) - (stim.rounds - 1);
    'rounds: for round in 0..stim.rounds {
        if !row.mark_written(readers, first + round, due) {
            return false;
        }
    }
    true
}

/// The last step of a moment.
fn last_round(rounds: u32, moment: u32) -> u32
    requires rounds { 0 < rounds }
    requires small { settled.last_round rounds moment < 2 ^ 32 }
    ensures { result ≡ settled.last_round rounds moment }
{
    moment * rounds + (rounds - 1)
}
