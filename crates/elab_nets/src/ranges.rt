//! The bits of a declared range, counted from its left index (IEEE 1364-2005, clause 4.3).

ghost use Rattle.std.specs.Prelude.{◌≡◌, ◌<◌};
ghost use Rattle.elab_nets.specs.Ranges as spec;

/// How many bits a name of this range has: one where it has none.
pub fn width_of(range: Option<(u32, u32)>) -> usize
    ensures { result ≡ spec.width_of range }
{
    match range {
        None => 1,
        Some(range) => offset(range, range.1) as usize + 1,
    }
}

/// The index of a bit, counted from the left.
pub fn bit_at(range: Option<(u32, u32)>, bit: usize) -> Option<u32>
    requires { bit < spec.width_of range }
    ensures { result ≡ spec.bit_at range bit }
{
    match range {
        None => None,
        Some((left, right)) if left <= right => Some(left + bit as u32),
        Some((left, _)) => Some(left - bit as u32),
    }
}

/// How far an index is from the left one.
pub fn offset(range: (u32, u32), index: u32) -> u32
    ensures { result ≡ spec.offset range index }
{
    if index <= range.0 {
        range.0 - index
    } else {
        index - range.0
    }
}

/// Whether an index is one of the range, whose direction may be either.
pub fn within(range: (u32, u32), index: u32) -> bool
    ensures { result ≡ spec.within range index }
{
    (range.0 <= index && index <= range.1) || (range.1 <= index && index <= range.0)
}
