// Records: a 16-bit length, a 16-bit kind, then that many bytes. Numbers have their low byte first.
#![tactic(auto)]

pub mod kind;
pub mod numbers;
pub mod rest;

ghost use Rattle.std.specs.Prelude.{◌≡◌, ◌+◌, ◌*◌};
ghost use Rattle.records.specs.Words.{word_of, header_of, word_at};

// A file of records has at most this many bytes.
pub const MAX_BYTES: usize = 65000;

// The four bytes before a record's contents.
#[derive(Clone, Copy)]
pub struct Header {
    pub length: u16,
    pub kind: u16,
}

// The number that two bytes hold.
pub fn word(low: u8, high: u8) -> u16
    ensures value { result ≡ word_of low high }
{
    u16::from_le_bytes([low, high])
}

// The header that the bytes begin with, where there are four bytes.
pub fn read_header(bytes: &[u8]) -> Option<Header>
    ensures value { result ≡ header_of bytes.now }
{
    let [a, b, c, d] = *bytes.first_chunk::<4>()?;
    Some(Header {
        length: word(a, b),
        kind: word(c, d),
    })
}

// The number at a place, where two bytes stand there.
pub fn read_word(bytes: &[u8], place: usize) -> Option<u16>
    ensures value { result ≡ word_at bytes.now place }
{
    let [low, high] = *bytes.get(place..)?.first_chunk::<2>()?;
    Some(word(low, high))
}
