//! What nets show, step by step.

ghost use Rattle.std.specs.Prelude.{◌≡◌, ◌-◌, ◌<◌, ◌^◌, true, length};
ghost use Rattle.design_circuit.specs.History.{HasPlace, held_in, net_place};
ghost use Rattle.design_circuit.specs.Row.{RowView, next_row};
ghost use Rattle.replay_fans.specs.Marks.{OnlyMore};
ghost use Rattle.recording_writer.specs.Readers.{FitsReaders, KeepLetters};
ghost use Rattle.recording_writer.specs.Steps.{HasStep};
ghost use Rattle.replay_due.specs.Due.{HasRoomFor};

use crate::readers::BitReaders;
use design_cell::Value;
use design_circuit::HistoryRow;
use replay_due::Due;
use replay_history::mark_changes;

/// What each net shows at a step, for readers that go from step to step.
pub trait Shown: Drop {
    /// The history that it shows, and the step.
    ghost view: { Self → RowView };

    /// The step.
    fn step(&self) -> usize
        ensures { result ≡ (view self.now).step };

    /// Goes on to the next step.
    fn next_step(&mut self)
        requires { (view self.old).step < 2 ^ 32 }
        ensures { view self.new ≡ next_row (view self.old) };

    /// What a net shows at the step.
    fn shown(&self, net: u32) -> Value
        requires { HasPlace (view self.now).history (net_place (view self.now).step net) }
        ensures { result ≡ (held_in (view self.now).history (net_place (view self.now).step net)).shown };

    /// The readers of each net that is written at a step, its own or another one, become due. False where it isn't told
    /// what is written.
    fn mark_written(&self, readers: &BitReaders, step: u32, due: &mut Due) -> bool
        requires readers { FitsReaders (view self.now).history.nets readers.now }
        requires later { 0 < step }
        requires step { HasStep (view self.now).history step }
        requires room { HasRoomFor due.old readers.now.room }
        ensures long { length due.new ≡ length due.old }
        ensures more { OnlyMore due.old due.new }
        ensures kept { result ≡ true →
            KeepLetters (view self.now).history readers.now.table (step - 1) step due.new };
}

impl<'a> Shown for HistoryRow<'a> {
    ghost view = { λ r. r };

    fn step(&self) -> usize {
        HistoryRow::step(self)
    }

    fn next_step(&mut self) {
        HistoryRow::next_step(self)
    }

    fn shown(&self, net: u32) -> Value {
        HistoryRow::shown(self, net)
    }

    fn mark_written(&self, readers: &BitReaders, step: u32, due: &mut Due) -> bool {
        match self.history().written(step as usize) {
            Some(changes) => {
                mark_changes(&readers.table, readers.room, changes, due);
                true
            }
            None => false,
        }
    }
}
