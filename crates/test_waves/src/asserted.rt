//! Comparisons that stop a test. An assertion is one more way out of the function that it stands in, and
//! the proof of a function goes along each with all that it owns; a call of these is none.

ghost use Rattle.std.specs.Prelude.{◌≡◌, true};

use std::fmt::Debug;
use std::process::Abort;

/// Stops where what came isn't what must come, and says of what.
pub fn same<T: PartialEq + Debug + Copy>(rt: &impl Abort, what: &str, came: T, want: T) {
    assert_eq!(rt; came, want, "{what}");
}

/// The same of lists.
pub fn same_items<T: PartialEq + Debug>(rt: &impl Abort, what: &str, came: &[T], want: &[T]) {
    assert_eq!(rt; came, want, "{what}");
}

/// Stops where a fact doesn't hold, and says which.
pub fn holds(rt: &impl Abort, which: &str, fact: bool)
    ensures { fact ≡ true }
{
    assert!(rt; fact, "{which}");
}
