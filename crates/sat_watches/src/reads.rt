//! Reads and writes of lists: past the end a read gives another item, and a write leaves the list as it is.

ghost use Rattle.std.specs.Prelude.{◌≡◌, ◌-◌, ◌<◌, ◌≤◌, ◌^◌, length, min, slice_index_or, slice_set};

/// The item of a place, or another one where there is none.
pub fn item_at<T: Copy>(items: &[T], k: usize, other: T) -> T
    ensures item { result ≡ slice_index_or items.now k other }
    ensures past { length items.now ≤ k → result ≡ other }
{
    if k < items.len() { items[k] } else { other }
}

/// Writes the item of a place, if there is such a place.
pub fn set_item<T: Copy>(items: &mut [T], k: usize, item: T)
    ensures item { items.new ≡ slice_set items.old k item }
    ensures past { length items.old ≤ k → items.new ≡ items.old }
{
    if k < items.len() {
        items[k] = item;
    }
}

/// A number in four bytes; the highest that fits, where it doesn't.
pub fn narrow(number: usize) -> u32
    ensures fits { number < 2 ^ 32 → result ≡ number }
    ensures any { result ≡ min number (2 ^ 32 - 1) }
{
    if number > u32::MAX as usize {
        return u32::MAX;
    }
    number as u32
}
