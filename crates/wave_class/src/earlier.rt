//! What is known of the places before a place.

ghost use Rattle.std.specs.Prelude.{◌≡◌, ℕ, ◌<◌, ◌≤◌};
ghost use Rattle.wave_class.specs.Facts.{Facts};

use design_circuit::Source;

/// The certain values of earlier places, and what is told of each: of its class perhaps not all.
pub trait Earlier: Source {
    ghost facts: { Self → ℕ → Facts };

    // How many places, from the first on, it has.
    ghost count: { Self → ℕ };

    /// Whether the class of the place of a number is told to be Carried from the step before, as it is.
    fn is_carried_on(&self, place: usize) -> bool
        requires { Self.has self.now place }
        ensures { result ≡ (facts self.now place).carries };

    /// Whether it is told to be Local or Free.
    fn is_plain(&self, place: usize) -> bool
        requires { Self.has self.now place }
        ensures { result ≡ (facts self.now place).plain };

    /// Whether it is told to be Line.
    fn is_line(&self, place: usize) -> bool
        requires { Self.has self.now place }
        ensures { result ≡ (facts self.now place).line };

    /// Whether its net keeps there.
    fn keeps(&self, place: usize) -> bool
        requires { Self.has self.now place }
        ensures { result ≡ (facts self.now place).keeps };

    ghost has_all: { (s : Self) (place : ℕ) → place ≤ count s → (k : ℕ) → k < place → Self.has s k };
}
