//! The places of short codes in a table.

ghost use Rattle.std.specs.Prelude.{◌≡◌, ◌<◌, ◌-◌, length, slice_index};
ghost use Rattle.std.specs.List.{list_all};
ghost use Rattle.recording_codes.specs.Slots.{is_short, is_slot_byte, slot_of};

/// Whether it is one to four bytes 33 to 126, of which the fourth is 33 or 34.
pub fn is_short(text: &[u8]) -> bool
    ensures { result ≡ is_short text.now }
{
    1 <= text.len() && text.len() <= 4 && digit_at(text, 3) <= 2 && all_slot_bytes(text)
}

fn all_slot_bytes(text: &[u8]) -> bool
    ensures { result ≡ list_all is_slot_byte text.now }
{
    text.iter().all(|b| is_slot_byte(*b))
}

fn is_slot_byte(b: u8) -> bool
    ensures { result ≡ is_slot_byte b }
{
    33 <= b && b <= 126
}

/// The place of a short code in the table.
pub fn slot_of(text: &[u8]) -> usize
    ensures { result ≡ slot_of text.now }
{
    digit_at(text, 0) + 95 * (digit_at(text, 1) + 95 * (digit_at(text, 2) + 95 * digit_at(text, 3)))
}

/// The digit that the byte at this place is, 0 where there is none.
fn digit_at(text: &[u8], place: usize) -> usize
    ensures is { result ≡ slice_index text.now place - 32 }
    ensures small { result < 256 }
{
    if place < text.len() {
        text[place].saturating_sub(32) as usize
    } else {
        0
    }
}
