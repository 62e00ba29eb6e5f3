// The atoms of a rule, read where its record stands. The record is known to stand whole, so that no place has to be tested.
ghost use Rattle.std.specs.Prelude.{◌≡◌, ◌+◌, ◌*◌, ◌≤◌, Some, length};
ghost use Rattle.records.specs.Words.{word_at};
ghost use Rattle.program_file.specs.Stored.{Whole, number_in, stored_head, stored_positive, stored_negative};

use records::word;

// The head of the rule whose record begins at `start`.
pub(crate) fn head_at(bytes: &[u8], start: u16) -> Option<u16>
    requires whole { Whole bytes.now start }
    ensures value { result ≡ stored_head bytes.now start }
{
    Some(word_in(bytes, usize::from(start) + 4))
}

// The positive atom at a position.
pub(crate) fn positive_at(bytes: &[u8], start: u16, position: u16) -> Option<u16>
    requires whole { Whole bytes.now start }
    ensures value { result ≡ stored_positive bytes.now start position }
{
    let start = usize::from(start);
    let many = word_in(bytes, start + 6);
    number_in(bytes, start + 8, many, position)
}

// The negative atom at a position.
pub(crate) fn negative_at(bytes: &[u8], start: u16, position: u16) -> Option<u16>
    requires whole { Whole bytes.now start }
    ensures value { result ≡ stored_negative bytes.now start position }
{
    let start = usize::from(start);
    let size = word_in(bytes, start);
    let positive = word_in(bytes, start + 6);
    let many = (size - 4) / 2 - positive;
    number_in(
        bytes,
        start + (8 + 2 * usize::from(positive)),
        many,
        position,
    )
}

// The number at a position of `many` that stand at a place.
fn number_in(bytes: &[u8], place: usize, many: u16, position: u16) -> Option<u16>
    requires there { place + 2 * many ≤ length bytes.now }
    ensures value { result ≡ number_in bytes.now place many position }
{
    if position >= many {
        return None;
    }
    Some(word_in(bytes, place + 2 * usize::from(position)))
}

// The number at a place where two bytes stand.
fn word_in(bytes: &[u8], place: usize) -> u16
    requires there { place + 2 ≤ length bytes.now }
    ensures value { Some result ≡ word_at bytes.now place }
{
    word(bytes[place], bytes[place + 1])
}
