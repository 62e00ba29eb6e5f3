// Mark tables: this crate alone knows what a mark byte means.
#![tactic(auto)]

ghost use Rattle.std.specs.Prelude.{◌≡◌, not, length, replicate, position};
ghost use Rattle.tables.specs.Entries.{with_put};
ghost use Rattle.marks.specs.Codes.{mark_of};
ghost use Rattle.marks.specs.Calls.{bytes_checked};
ghost use Rattle.marks.specs.Marks.{lawful_byte, in_byte, doubted_byte, marked, doubted, lowest_unlawful, marked_count, doubted_count, sifted, byte_of, with_in, with_out, with_doubt, with_turned};

use refusal::{Layer, Reason, Refusal};
use tables::{entry, put_entry};

pub mod calls;

// What a mark says of its atom: out, in, or in and doubted.
#[derive(Clone, Copy, PartialEq, Eq)]
enum Mark {
    Out = 0,
    In = 1,
    Doubted = 2,
}

// A byte that stands for no mark.
#[derive(Clone, Copy, PartialEq, Eq)]
struct UnknownMark(u8);

impl TryFrom<u8> for Mark {
    type Error = UnknownMark;

    ghost try_from_gives = { λ byte r. r ≡ mark_of byte };

    fn try_from(byte: u8) -> Result<Mark, UnknownMark> {
        match byte {
            0 => Ok(Mark::Out),
            1 => Ok(Mark::In),
            2 => Ok(Mark::Doubted),
            _ => Err(UnknownMark(byte)),
        }
    }
}

// Is the atom in the marked set?
pub fn is_marked(marks: &[u8], atom: u16) -> bool
    ensures value { result ≡ marked marks.now atom }
{
    entry(marks, atom).is_some_and(is_in)
}

// Is the atom marked, and doubted?
pub fn is_doubted(marks: &[u8], atom: u16) -> bool
    ensures value { result ≡ doubted marks.now atom }
{
    entry(marks, atom).is_some_and(is_in_doubt)
}

// Refuses the lowest byte that has no meaning.
pub fn check_bytes(marks: &[u8]) -> Result<(), Refusal>
    ensures value { result ≡ bytes_checked (lowest_unlawful marks.now) }
{
    // a `match`: no method turns a `Some` into an `Err`, and `map_or` says it no plainer
    match find_unlawful(marks) {
        Some(place) => Err(Layer::Survey.refuse(Reason::MarkByte, place)),
        None => Ok(()),
    }
}

// The lowest atom whose byte has no meaning.
pub fn find_unlawful(marks: &[u8]) -> Option<usize>
    ensures value { result ≡ lowest_unlawful marks.now }
{
    find_unlawful_byte(marks).map(|place| place + 1)
}

// The place of the first byte that has no meaning.
fn find_unlawful_byte(marks: &[u8]) -> Option<usize>
    ensures value { result ≡ position (λ b. not (lawful_byte b)) marks.now }
{
    marks.iter().position(|byte| !is_lawful(*byte))
}

// How many atoms are marked.
pub fn count_marked(marks: &[u8]) -> usize
    ensures value { result ≡ marked_count marks.now }
{
    marks.iter().filter(|byte| is_in(**byte)).count()
}

// How many atoms are doubted.
pub fn count_doubted(marks: &[u8]) -> usize
    ensures value { result ≡ doubted_count marks.now }
{
    marks.iter().filter(|byte| is_in_doubt(**byte)).count()
}

// Puts every atom out.
pub fn clear(marks: &mut [u8])
    ensures after { marks.new ≡ replicate (length marks.old) 0 }
{
    marks.fill(Mark::Out as u8);
}

// Puts an atom in; an atom without a byte is passed over.
pub fn put_in(marks: &mut [u8], atom: u16)
    ensures after { marks.new ≡ with_in marks.old atom }
{
    put_entry(marks, atom, Mark::In as u8);
}

// Puts an atom out; an atom without a byte is passed over.
pub fn put_out(marks: &mut [u8], atom: u16)
    ensures after { marks.new ≡ with_out marks.old atom }
{
    put_entry(marks, atom, Mark::Out as u8);
}

// Puts an atom in, and doubts it; an atom without a byte is passed over.
pub fn put_doubt(marks: &mut [u8], atom: u16)
    ensures after { marks.new ≡ with_doubt marks.old atom }
{
    put_entry(marks, atom, Mark::Doubted as u8);
}

// Doubts an atom that is in where it is left over, and ends the doubt of one that is in and not left over.
pub fn sift(marks: &mut [u8], atom: u16, left: bool)
    ensures after { marks.new ≡ with_put marks.old atom (sifted left (byte_of marks.old atom)) }
{
    if is_marked(marks, atom) {
        if left {
            put_doubt(marks, atom);
        } else {
            put_in(marks, atom);
        }
    }
}

// Puts an atom out that is in, and in one that is not; an atom without a byte is passed over.
pub fn turn(marks: &mut [u8], atom: u16)
    ensures after { marks.new ≡ with_turned marks.old atom }
{
    if is_marked(marks, atom) {
        put_out(marks, atom);
    } else {
        put_in(marks, atom);
    }
}

// Does the byte have a meaning?
fn is_lawful(byte: u8) -> bool
    ensures value { result ≡ lawful_byte byte }
{
    Mark::try_from(byte).is_ok()
}

// Does the byte say that its atom is in?
fn is_in(byte: u8) -> bool
    ensures value { result ≡ in_byte byte }
{
    matches!(Mark::try_from(byte), Ok(Mark::In | Mark::Doubted))
}

// Does the byte say that its atom is in and doubted?
fn is_in_doubt(byte: u8) -> bool
    ensures value { result ≡ doubted_byte byte }
{
    matches!(Mark::try_from(byte), Ok(Mark::Doubted))
}
