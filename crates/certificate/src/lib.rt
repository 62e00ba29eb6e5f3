// Certificates: the atoms that a solver claims to be in, each with a level or none.
#![tactic(auto)]

pub mod walk;

ghost use Rattle.std.specs.Prelude.{◌≡◌, ◌+◌, ◌≤◌, true, length};
ghost use Rattle.refusal.specs.declared.Layer.TheVariants.{Certificate};
ghost use Rattle.records.specs.Words.{header_of};
ghost use Rattle.certificate.specs.Reading.{stated_kind, by_head_header, opened, Fitting, claim_length, atom_fault, checked, level_in, claim_of, claim_at, claims_from, claims_in, counted};
ghost use Rattle.certificate.specs.Relation.{ReadsExactly, NeverTooMany};

use levels::order::StoredLevel;
use levels::table::Entry;
use records::kind::RecordKind;
use records::read_word;
use records::rest::{self, HEAD_SIZE, Reader};
use refusal::{Layer, Reason, Refusal};

// The head record of a certificate has this many bytes.
pub const HEAD_BYTES: usize = 8;

// An atom that is claimed to be in, with the level claimed for it.
#[derive(Clone, Copy)]
pub struct Claim<L> {
    pub atom: u16,
    pub level: Entry<L>,
}

// The claim in a record, and where the next record begins.
#[derive(Clone, Copy)]
pub struct Step<L> {
    pub claim: Claim<L>,
    pub next: usize,
}

// The reader of a certificate.
struct CertificateReader;

impl Reader for CertificateReader {
    ghost layer = { Certificate };

    fn layer() -> Layer {
        Layer::Certificate
    }
}

// What is left of a certificate.
type Rest<'a> = rest::Rest<'a, CertificateReader>;

// How many claims a certificate for n atoms has.
pub fn check<L: StoredLevel>(bytes: &[u8], n: u16) -> Result<u16, Refusal>
    ensures value { result ≡ counted (claims_in L.WIDTH L.decode n L.KIND bytes.now) }
    ensures exact { ReadsExactly L.WIDTH L.encode L.decode n L.KIND bytes.now }
    ensures never { NeverTooMany L.WIDTH L.decode n L.KIND bytes.now }
{
    let file = Rest::of(bytes)?;
    let stated = kind_of(file, n)?;
    if stated != L::KIND {
        return Err(file.refuse(Reason::LevelKind));
    }
    count_claims::<L>(file.after(HEAD_SIZE), n)
}

// The claim in the record that begins at a place, where one stands there.
pub fn next_claim<L: StoredLevel>(bytes: &[u8], place: usize) -> Option<Step<L>>
    ensures value { result ≡ claim_at L.WIDTH L.decode bytes.now place }
{
    let rest = Rest::at(bytes, place)?;
    let size = open_record(rest, L::WIDTH).ok()??;
    Some(Step {
        claim: read_claim::<L>(rest.bytes, size),
        next: rest.after(size).place,
    })
}

// The level kind that a certificate for n atoms states.
pub fn read_kind(bytes: &[u8], n: u16) -> Result<u16, Refusal>
    ensures value { result ≡ stated_kind n bytes.now }
{
    let file = Rest::of(bytes)?;
    kind_of(file, n)
}

// The level kind in the head record of a certificate for n atoms.
fn kind_of(file: Rest<'_>, n: u16) -> Result<u16, Refusal>
    requires begins { file.place ≡ 0 }
    ensures value { result ≡ by_head_header n file.entry.bytes.now (header_of file.entry.bytes.now) }
{
    let (atoms, kind) = file.read_head(RecordKind::CertificateHead)?;
    if atoms != n {
        return Err(file.refuse(Reason::AtomCount));
    }
    Ok(kind)
}

// The length of the claim's record that stands here, or none where the end's does: cut, kind, length, contents.
fn open_record(rest: Rest<'_>, width: usize) -> Result<Option<u16>, Refusal>
    requires few { width ≤ 8 }
    ensures value { result ≡ opened width rest.entry.bytes.now rest.entry.place }
    ensures fitting { Fitting width rest.entry.bytes.now result }
{
    // `let .. else`, since `map` with `transpose` says no plainer that the end goes on as it is
    let Some(size) = rest.open(RecordKind::Claim)? else {
        return Ok(None);
    };
    if size != 2 && usize::from(size) != 2 + width {
        return Err(rest.refuse(Reason::Length));
    }
    if rest.bytes.len() < 4 + usize::from(size) {
        return Err(rest.refuse(Reason::Cut));
    }
    Ok(Some(size))
}

// The claim in a record of `size` bytes.
fn read_claim<L: StoredLevel>(rest: &[u8], size: u16) -> Claim<L>
    requires whole { 4 + size ≤ length rest.now }
    requires sized { claim_length L.WIDTH size ≡ true }
    ensures value { result ≡ claim_of L.WIDTH L.decode rest.now size }
{
    Claim {
        atom: read_word(rest, 4).unwrap_or(0),
        level: read_level::<L>(rest, size),
    }
}

// The level in a claim of `size` bytes: two bytes are those of its atom alone, so the length says whether there is a level.
fn read_level<L: StoredLevel>(rest: &[u8], size: u16) -> Entry<L>
    requires whole { 4 + size ≤ length rest.now }
    requires sized { claim_length L.WIDTH size ≡ true }
    ensures value { result ≡ level_in L.WIDTH L.decode rest.now size }
{
    if size == 2 {
        return None;
    }
    L::from_bytes(&rest[6..4 + usize::from(size)])
}

// The atom of the claim that stands here: one of 1 to n, and above the last one.
fn check_atom(rest: Rest<'_>, n: u16, last: u16, atom: u16) -> Result<(), Refusal>
    ensures value { result ≡ checked rest.entry.place (atom_fault n last atom) }
{
    if !(1..=n).contains(&atom) {
        return Err(rest.refuse(Reason::Atom));
    }
    if atom <= last {
        return Err(rest.refuse(Reason::Order));
    }
    Ok(())
}

// The records after the head, to the end of the file.
#[tactic(auto, using(crate::proofs::Turns::turn_refused, crate::proofs::Turns::turn_full, crate::proofs::Turns::turn_end, crate::proofs::Turns::turn_fault, crate::proofs::Turns::turn_end_refused))]
fn count_claims<L: StoredLevel>(records: Rest<'_>, n: u16) -> Result<u16, Refusal>
    ensures value { result ≡ counted (claims_from L.WIDTH L.decode n n 0 records.entry.bytes.now records.entry.place) }
{
    let mut count = 0u16;
    let mut last = 0u16;
    let mut rest = records;
    'records: while let Some(size) = open_record(rest, L::WIDTH)? {
        let atom = read_word(rest.bytes, 4).unwrap_or(0);
        check_atom(rest, n, last, atom)?;
        if count >= n {
            return Err(rest.refuse(Reason::RecordCount));
        }
        // kept by hand: the next turn compares it; an iterator over records, each of which may be refused, would be no plainer
        count += 1;
        last = atom;
        rest = rest.after(size);
    }
    rest.check_end()?;
    Ok(count)
}
