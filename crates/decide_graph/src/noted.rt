//! Places that are noted, as far as there is room: each at the spot of its number, one of 64.

ghost use Rattle.std.specs.Prelude.{◌≡◌, ◌==◌, ◌%◌, [], slice_index};
ghost use Rattle.decide_graph.specs.Noted.{AreNoted, Forgets, Notes};

/// No place is noted: at no spot stands a number whose spot it is.
pub fn none() -> [usize; 64]
    ensures { AreNoted result [] }
{
    let mut spots = [0; 64];
    spots[0] = 1;
    spots
}

/// Whether a place is noted.
pub fn is_noted(spots: &[usize; 64], place: usize) -> bool
    ensures { result ≡ (slice_index spots.now (place % 64) == place) }
{
    spots[place % 64] == place
}

/// Notes a place. Of two that have one spot the lower stays.
pub fn note(spots: &mut [usize; 64], place: usize)
    ensures { Notes spots.old place spots.new }
{
    let spot = place % 64;
    let free = gives_way(spots[spot], spot, place);
    if free {
        spots[spot] = place;
    }
}

/// Whether what stands at the spot of a place gives way to it: its spot is another, or it is higher.
fn gives_way(other: usize, spot: usize, place: usize) -> bool {
    other % 64 != spot || place < other
}

/// A place is noted no longer.
pub fn forget(spots: &mut [usize; 64], place: usize)
    ensures { Forgets spots.old place spots.new }
{
    if is_noted(spots, place) {
        spots[place % 64] = stranger(place);
    }
}

/// A number whose spot isn't that of a place.
fn stranger(place: usize) -> usize
    ensures { result % 64 ≡ place % 64 → ⊥ }
{
    if place % 64 == 0 { 1 } else { 0 }
}
