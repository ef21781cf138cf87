//! A wave as what is known of the places that are written.

ghost use Rattle.std.specs.Prelude.{◌≡◌, ℕ, ◌<◌, length};
ghost use Rattle.design_cell.specs.declared.value.Value.{Value as AnyValue};
ghost use Rattle.design_circuit.specs.Waveform.{certain};

use crate::wave::Wave;
use design_cell::Value;
use design_circuit::Source;
use wave_due::value_if_certain;

impl<'a> Source for Wave<'a> {
    ghost reads = { λ wave place. certain wave.written place };

    ghost has = { λ wave place. place < length wave.written };

    fn value(&self, place: usize) -> Value {
        certain_at(self, place)
    }
}

/// The value of the place of a number where it is certain, else x.
#[tactic(auto, unfolding(design_circuit::specs::Waveform::certain))]
fn certain_at(wave: &Wave<'_>, place: usize) -> Value
    requires { place < length wave.now.written }
    ensures { result ≡ certain wave.now.written place }
{
    value_if_certain(wave.written(place))
}
