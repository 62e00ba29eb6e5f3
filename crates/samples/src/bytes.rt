// The bytes of a file, built record by record. Kinds of records stand here as numbers: a case says which bytes a file has, and
// with the reader's own names it would be no plainer.
ghost use Rattle.std.specs.Prelude.{◌≡◌, ◌+◌, ◌*◌, [], length, IfOk, vec_len, OnOk};

use levels::order::StoredLevel;
use orders::kind::LevelKind;
use orders::numbers::Number;
use orders::routes::Route;
use std::alloc::{AllocError, Global};

// The records of a file as they stand in it, each a list of words: its length, its kind, its contents.
pub type Records = &'static [&'static [u16]];

// An atom that a certificate claims, with a level or none.
pub type Claim = (u16, Option<u64>);

// Which levels a certificate has.
pub type Order = LevelKind;

#[derive(Drop)]
pub struct FileBytes {
    bytes: Vec<u8>,
}

impl FileBytes {
    // A file with nothing in it.
    pub fn new(heap: Global) -> FileBytes
        ensures empty { result.bytes.items ≡ [] }
        ensures len { vec_len result.bytes ≡ 0 }
    {
        FileBytes {
            bytes: Vec::new(heap),
        }
    }

    // The file of some records.
    pub fn of_records(heap: Global, records: Records) -> Result<FileBytes, AllocError> {
        let mut file = FileBytes::new(heap);
        for record in records {
            file.words(record)?;
        }
        Ok(file)
    }

    // The file of as many bytes 0.
    pub fn of_zeros(heap: Global, many: u32) -> Result<FileBytes, AllocError>
        ensures len { IfOk result (λ file. vec_len file.bytes ≡ many) }
    {
        let mut file = FileBytes::new(heap);
        file.zeros(many)?;
        Ok(file)
    }

    // The certificate of some claims over n atoms.
    pub fn of_claims(
        heap: Global,
        n: u16,
        order: Order,
        claims: &[Claim],
    ) -> Result<FileBytes, AllocError> {
        let mut file = FileBytes::new(heap);
        file.words(&[4, 17, n, order as u16])?;
        for (atom, level) in claims {
            file.claim(order, *atom, *level)?;
        }
        file.words(&[0, 3])?;
        Ok(file)
    }

    // 8000 rules in 65000 bytes: 1 from 3 to 249, then 1 again and again, and 2 unless one of 3 to 249.
    pub fn largest(heap: Global) -> Result<FileBytes, AllocError>
        ensures len { IfOk result (λ file. vec_len file.bytes ≡ 65000) }
    {
        let mut file = FileBytes::new(heap);
        file.words(&[4, 1, 4096, 8000])?;
        file.rule(1, 247, 3, 247)?;
        file.facts(1, 7998)?;
        file.rule(2, 0, 3, 247)?;
        file.words(&[0, 3])?;
        Ok(file)
    }

    pub fn as_slice(&self) -> &[u8]
        ensures value { result.now ≡ self.now.bytes.items }
    {
        self.bytes.as_slice()
    }

    // Adds a byte.
    pub fn byte(&mut self, value: u8) -> Result<(), AllocError>
        ensures len { OnOk result (vec_len self.new.bytes ≡ vec_len self.old.bytes + 1) }
    {
        self.bytes.push(value)?;
        Ok(())
    }

    // Adds a number of two bytes, the low one first.
    pub fn word(&mut self, value: u16) -> Result<(), AllocError>
        ensures len { OnOk result (vec_len self.new.bytes ≡ vec_len self.old.bytes + 2) }
    {
        self.bytes.extend_from_slice(&value.to_le_bytes())
    }

    // Adds some numbers of two bytes.
    pub fn words(&mut self, values: &[u16]) -> Result<(), AllocError>
        ensures len { OnOk result (vec_len self.new.bytes ≡ vec_len self.old.bytes + 2 * length values.now) }
    {
        for value in values {
            self.word(*value)?;
        }
        Ok(())
    }

    // Adds as many bytes 0.
    pub fn zeros(&mut self, many: u32) -> Result<(), AllocError>
        ensures len { OnOk result (vec_len self.new.bytes ≡ vec_len self.old.bytes + many) }
    {
        self.bytes.resize(self.bytes.len() + many as usize, 0)
    }

    // Adds a rule without a body, as many times.
    pub fn facts(&mut self, head: u16, many: u16) -> Result<(), AllocError>
        ensures len { OnOk result (vec_len self.new.bytes ≡ vec_len self.old.bytes + 8 * many) }
    {
        for _i in 0..many {
            self.words(&[4, 2, head, 0])?;
        }
        Ok(())
    }

    // Adds a rule over as many atoms, from `first` on, of which the first `positive` are positive.
    pub fn rule(&mut self, head: u16, positive: u8, first: u8, many: u8) -> Result<(), AllocError>
        ensures len { OnOk result (vec_len self.new.bytes ≡ vec_len self.old.bytes + (8 + 2 * many)) }
    {
        self.words(&[4 + 2 * u16::from(many), 2, head, u16::from(positive)])?;
        let first = u16::from(first);
        for atom in first..first + u16::from(many) {
            self.word(atom)?;
        }
        Ok(())
    }

    fn claim(&mut self, order: Order, atom: u16, level: Option<u64>) -> Result<(), AllocError> {
        let Some(level) = level else {
            return self.words(&[2, 18, atom]);
        };
        let width = match order {
            Order::Numbers => Number::WIDTH,
            Order::Routes => Route::WIDTH,
        };
        self.words(&[2 + width as u16, 18, atom])?;
        self.bytes.extend_from_slice(&level.to_le_bytes()[..width])
    }
}
