//! Which place a line names.

ghost use Rattle.wave_proved.specs.Token.{HasNext};
ghost use Rattle.cert_check.specs.Step.{IsDue};

use law_model::Line;
use wave_proved::Wave;

/// Whether a line names the place that is due, a later one of the job, or any other.
#[derive(Clone, Copy, Debug, PartialEq, Eq)]
pub enum Due {
    Here,
    Later,
    Astray,
}

/// Which place a line names, beside the next one.
pub fn due_of(wave: &Wave<'_>, line: &Line) -> Due
    requires { HasNext wave.now }
    ensures { IsDue wave.now line.now result }
{
    let circuit = wave.circuit();
    if !circuit.has_place(line.place) {
        return Due::Astray;
    }
    let number = circuit.number_of(line.place);
    if number == wave.count() {
        Due::Here
    } else if wave.count() < number {
        Due::Later
    } else {
        Due::Astray
    }
}
