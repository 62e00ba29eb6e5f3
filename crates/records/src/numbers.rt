// The numbers that bytes hold, one after the other.
ghost use Rattle.std.specs.Prelude.{◌≡◌};
ghost use Rattle.std.specs.Iterator.{YieldsFirst, item_count};
ghost use Rattle.records.specs.Words.{words};

// What is left of the bytes, two for each number; a last byte alone holds none.
#[derive(Clone, Copy)]
pub struct Words<'a> {
    bytes: &'a [u8],
}

// The numbers in the bytes, from the front.
pub fn words_in(bytes: &[u8]) -> Words<'_>
    ensures value { result.bytes.now ≡ bytes.now }
{
    Words { bytes }
}

impl Iterator for Words<'_> {
    type Item = u16;

    ghost next_gives = { YieldsFirst (λ s. words s.bytes.now) };

    ghost remaining = { item_count (λ s. words s.bytes.now) };

    fn next(&mut self) -> Option<u16> {
        let (first, rest) = self.bytes.split_first_chunk()?;
        self.bytes = rest;
        Some(u16::from_le_bytes(*first))
    }
}
