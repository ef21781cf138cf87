//! Values told apart.

ghost use Rattle.std.specs.Prelude.{◌≡◌, ◌≢◌, true, false};

use design_cell::Value;

/// Whether two values are the same, all four told apart.
pub fn is_same(value: Value, other: Value) -> bool
    ensures same { result ≡ true → value ≡ other }
    ensures differ { result ≡ false → value ≢ other }
{
    value == other
}
