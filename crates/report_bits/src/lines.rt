//! Which lines of bits a report has, and what they are made of.

ghost use Rattle.std.specs.Prelude.{◌<◌, All, length};
ghost use Rattle.std.proofs.Props.{props};
ghost use Rattle.wave_proved.specs.Contents.{IsFinished};

use wave_proved::Wave;

/// Which moments of a recorded bit that is x or z have a line in a report.
#[derive(Clone, Copy, Debug, PartialEq, Eq)]
pub enum ReportLines {
    /// Each.
    All,
    /// The first, and each in which the recorded value or the result isn't what it was a moment before.
    Changes,
}

/// A finished wave, and which lines of its bits a report has.
#[derive(Clone, Copy)]
pub struct WaveLines<'w, 'a> {
    pub wave: &'w Wave<'a>,
    pub lines: ReportLines,
    pub ghost finished: { IsFinished wave.now },
}

/// The bits of a moment whose lines are put.
#[derive(Clone, Copy)]
pub struct MomentBits<'m, 'w, 'a> {
    pub from: WaveLines<'w, 'a>,
    pub moment: u32,
    pub nets: &'m [u32],
    pub ghost there: { moment < length from.wave.now.stim.times },
    pub ghost low: { All (λ net. net < length from.wave.now.design.nets) nets.now } by { Prim.hlevel props },
}
