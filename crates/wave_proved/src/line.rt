//! Writing the Line places: each spends its verdict, and appends one line.

ghost use Rattle.std.specs.Prelude.{◌≡◌, ◌↔◌, Some, IfOk, IfErr};
ghost use Rattle.law_model.specs.Yields.{line_of};
ghost use Rattle.wave_proved.specs.Advance.{IfObjects, Objects, Reports};
ghost use Rattle.wave_proved.specs.Token.{IsLineNext, LineAgrees, LineContradicts, LineHolds, LineYields};
ghost use Rattle.wave_proved.specs.Token.{with_line, written_by_line};

use crate::advance::{AdvanceErr, certain_written, is_optimistic, optimistic_of};
use crate::token::Verdict;
use crate::wave::Wave;
use design_cell::Value;
use design_circuit::{Mark, Written};
use law_model::Body;

impl<'a> Wave<'a> {
    /// Writes the next place as a verdict says, and its line; or gives the wave up where the history knows the place
    /// otherwise, or there is no memory.
    pub fn write(self, verdict: Verdict) -> Result<Wave<'a>, AdvanceErr>
        requires class { IsLineNext self }
        requires holds { LineHolds self verdict }
        ensures ok { IfOk result (λ w. w ≡ with_line self.entry verdict) }
        ensures agrees { IfOk result (λ _. LineAgrees self.entry verdict) }
        ensures optimistic { Objects result ↔ LineContradicts self.entry verdict }
        ensures reported { IfErr result (IfObjects (Reports self.entry (written_by_line self.entry verdict))) }
        ensures yields { IfErr result (IfObjects (λ _. LineYields self.entry verdict)) }
    {
        let shown = self.shown_next();
        let written = written_by(verdict.body(), shown);
        let line = verdict.into_line();
        if is_optimistic(written, shown) {
            return Err(AdvanceErr::Optimistic(optimistic_of(self, written, shown)));
        }
        Ok(self.append_line(written, line)?)
    }
}

/// What a place gets whose line says this.
fn written_by(body: &Body, shown: Value) -> Written
    ensures { result ≡ line_of (Some body.now) shown }
{
    match body {
        Body::Enumerated(bit) => certain_written(*bit),
        Body::Refuted(bit, _) => certain_written(*bit),
        Body::Pair(_, _) => Written {
            value: shown,
            mark: Mark::Unknown,
        },
        Body::Undecided(_) => Written {
            value: shown,
            mark: Mark::Undecided,
        },
    }
}
