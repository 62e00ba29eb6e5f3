// A file of records, read from the front: what its readers share.
ghost use Rattle.std.specs.Prelude.{◌≡◌, ◌+◌, ◌<◌, ◌≤◌, length, drop, min, ⊤};
ghost use Rattle.std.specs.Option.{MatchOption};
ghost use Rattle.std.specs.Result.{IfOk, IfErr};
ghost use Rattle.refusal.specs.declared.Layer.{Layer};
ghost use Rattle.refusal.specs.declared.Reason.TheVariants.{Limit};
ghost use Rattle.refusal.specs.Refused.{refused};
ghost use Rattle.records.specs.Reading.{answered, head_numbers, record_opened, nothing_follows};

use crate::kind::RecordKind;
use crate::{MAX_BYTES, read_header, read_word};
use refusal::{Layer, Reason, Refusal};
use std::alloc::AllocError;
use std::marker::PhantomData;

// The contents of a head record are two numbers, of this many bytes.
pub const HEAD_SIZE: u16 = 4;

// Who reads a file of records, and refuses what is unfit.
pub trait Reader {
    ghost layer: { Layer };

    // The layer that refuses.
    fn layer() -> Layer
        ensures value { result ≡ layer };
}

// What is left of a file of records, and the place where it begins, for its reader.
pub struct Rest<'a, R> {
    pub bytes: &'a [u8],
    pub place: usize,
    reader: PhantomData<R>,
    // no slice has more bytes, so that a place further on is always a `usize`
    pub ghost bounded: { place + length bytes.now ≤ 9223372036854775807 },
}

// Written out: neither can be derived over a ghost field where there is a type parameter.
impl<R> Clone for Rest<'_, R> {
    ghost is_clone = { λ x y. y ≡ x };

    ghost is_infallible = { λ _. ⊤ };

    fn clone(&self) -> Result<Self, AllocError> {
        Ok(*self)
    }
}

impl<R> Copy for Rest<'_, R> {}

impl<'a, R: Reader> Rest<'a, R> {
    // A whole file, where it is within the limit.
    pub fn of(bytes: &'a [u8]) -> Result<Rest<'a, R>, Refusal>
        ensures whole { IfOk result (λ rest. (length bytes.now ≤ 65000) × (rest.bytes.now ≡ bytes.now) × (rest.place ≡ 0)) }
        ensures limit { IfErr result (λ e. (65000 < length bytes.now) × (e ≡ refused R.layer Limit 0)) }
    {
        if bytes.len() > MAX_BYTES {
            return Err(R::layer().refuse(Reason::Limit, 0));
        }
        Ok(Rest {
            bytes,
            place: 0,
            reader: PhantomData,
        })
    }

    // A file from a place on, where it is as long.
    pub fn at(bytes: &'a [u8], place: usize) -> Option<Rest<'a, R>>
        ensures value { MatchOption result (length bytes.now < place) (λ rest. (place ≤ length bytes.now) × (rest.bytes.now ≡ drop place bytes.now) × (rest.place ≡ place)) }
    {
        let bytes = bytes.get(place..)?;
        Some(Rest {
            bytes,
            place,
            reader: PhantomData,
        })
    }

    // The refusal of what stands here.
    pub fn refuse(self, reason: Reason) -> Refusal
        ensures value { result ≡ refused R.layer reason self.entry.place }
    {
        R::layer().refuse(reason, self.place)
    }

    // The two numbers in the head record that stands here: cut, kind, length, contents.
    pub fn read_head(self, kind: RecordKind) -> Result<(u16, u16), Refusal>
        ensures value { result ≡ answered R.layer self.entry.place (head_numbers kind self.entry.bytes.now) }
    {
        let header = read_header(self.bytes).ok_or(self.refuse(Reason::Cut))?;
        if header.kind != kind.number() {
            return Err(self.refuse(Reason::Kind));
        }
        if header.length != HEAD_SIZE {
            return Err(self.refuse(Reason::Length));
        }
        let first = read_word(self.bytes, 4).ok_or(self.refuse(Reason::Cut))?;
        let second = read_word(self.bytes, 6).ok_or(self.refuse(Reason::Cut))?;
        Ok((first, second))
    }

    // The length of the record of that kind that stands here, or none where the end's record does: cut, kind, length.
    pub fn open(self, kind: RecordKind) -> Result<Option<u16>, Refusal>
        ensures value { result ≡ answered R.layer self.entry.place (record_opened kind self.entry.bytes.now) }
    {
        let header = read_header(self.bytes).ok_or(self.refuse(Reason::Cut))?;
        if header.kind == kind.number() {
            return Ok(Some(header.length));
        }
        if header.kind != RecordKind::End.number() {
            return Err(self.refuse(Reason::Kind));
        }
        if header.length != 0 {
            return Err(self.refuse(Reason::Length));
        }
        Ok(None)
    }

    // The end's record, of four bytes, stands here: nothing follows it.
    pub fn check_end(self) -> Result<(), Refusal>
        ensures value { result ≡ nothing_follows R.layer self.entry.bytes.now self.entry.place }
    {
        if self.bytes.len() != 4 {
            return Err(R::layer().refuse(Reason::Trailing, self.place + 4));
        }
        Ok(())
    }

    // What is left after a record with contents of `size` bytes: nothing, where the file ends before.
    pub fn after(self, size: u16) -> Rest<'a, R>
        ensures bytes { result.bytes.now ≡ drop (4 + size) self.entry.bytes.now }
        ensures place { result.place ≡ self.entry.place + min (4 + size) (length self.entry.bytes.now) }
    {
        let length = self.bytes.len().min(4 + usize::from(size));
        Rest {
            bytes: &self.bytes[length..],
            place: self.place + length,
            reader: PhantomData,
        }
    }
}
