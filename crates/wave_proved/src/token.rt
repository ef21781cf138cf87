//! The token: what shows that the next place, a Line place, may be written. It can't be copied, and must be spent.

ghost use Rattle.std.specs.Prelude.{◌≡◌};
ghost use Rattle.wave_proved.specs.Token.{HasNext, HoldsNext, LineHolds};

use crate::wave::Wave;
use law_model::{Body, Line};
use std::marker::Model;

/// What shows that a line holds at the next place, a Line place. It can't be copied, and must be spent.
#[must_use]
#[derive(Debug)]
pub struct Verdict {
    line: Line,
}

impl Model for Verdict {
    ghost use Rattle.law_model.specs.declared.line.Line.{Line as ALine};

    ghost Value = { ALine };

    ghost view = { λ verdict. verdict.line };
}

impl Verdict {
    /// The verdict of the next place with a body.
    pub fn from_law(wave: &Wave<'_>, body: Body) -> Verdict
        requires next { HasNext wave.now }
        requires law { HoldsNext wave.now body }
        ensures body { result.body ≡ body }
        ensures holds { LineHolds wave.now result }
    {
        let place = wave.place_behind();
        Verdict {
            line: Line { place, body },
        }
    }

    /// What it says of the place.
    pub fn body(&self) -> &Body
        ensures { result.now ≡ self.now.body }
    {
        &self.line.body
    }

    /// What it says of the place; with that the verdict is given up.
    pub fn into_body(self) -> Body
        ensures { result ≡ self.body }
    {
        let Verdict { line } = self;
        line.body
    }

    pub(crate) fn into_line(self) -> Line
        ensures { result ≡ self }
    {
        let Verdict { line } = self;
        line
    }
}
