//! What the lines of a wave say of places. Nothing promises that a line is found, though it is where there is one.

ghost use Rattle.std.specs.Prelude.{◌≡◌, ◌<◌, Some, IfSome, length, slice_index};
ghost use Rattle.law_model.specs.Stated.{body_at};
ghost use Rattle.wave_proved.specs.Contents.{job};
ghost use Rattle.wave_proved.specs.Pairs.{numbers_of};

use law_model::Body;
use wave_proved::Wave;

/// What the line of the place of a number says, if one is found.
pub fn body_of<'l>(wave: &'l Wave<'_>, number: usize) -> Option<&'l Body>
    ensures { IfSome result (λ body. body_at (job wave.now) wave.now.lines number ≡ Some body.now) }
{
    wave.recall();
    let first = lines_before(wave, number);
    let lines = wave.lines();
    if first < lines.len() && number_at(wave, first) == number {
        Some(&lines[first].body)
    } else {
        None
    }
}

/// How many lines stand before that of the place of a number, by halves.
fn lines_before(wave: &Wave<'_>, number: usize) -> usize {
    let mut low = 0;
    let mut high = wave.lines().len();
    'halves: while low < high {
        let middle = low + (high - low) / 2;
        if number_at(wave, middle) < number {
            low = middle + 1;
        } else {
            high = middle;
        }
    }
    low
}

/// The number of the place of a line.
fn number_at(wave: &Wave<'_>, line: usize) -> usize
    requires { line < length wave.now.lines }
    ensures { result ≡ slice_index (numbers_of (job wave.now) wave.now.lines) line }
{
    let circuit = wave.circuit();
    circuit.number_of(wave.lines()[line].place)
}
