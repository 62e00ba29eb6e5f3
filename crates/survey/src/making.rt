// Making a survey: whether it can be made, and the tables as it leaves them.
// Marks and levels are two tables side by side: the caller owns both, and lends to a call those that it needs.
// The clause `named` stands at each call that takes the level table by `&mut`: it ties the table afterwards to the one before, as no type can.
ghost use Rattle.std.specs.Prelude.{◌≡◌, true, [], length, replicate, is_ok};
ghost use Rattle.certificate.specs.Reading.{claims_in};
ghost use Rattle.survey.specs.Made.{MadeFrom};
ghost use Rattle.survey.specs.Making.{fitting, claims_for, makeable, claims_or_none, with_claims, with_entry, with_levels, made_marks, made_entries};

use certificate::walk::claims_of;
use certificate::{HEAD_BYTES, check};
use levels::order::{Level, StoredLevel};
use levels::table::{Entry, LevelTable};
use refusal::{Refusal, check_length};
use rules::RuleSource;

// Can a survey be made of these tables, with nothing marked?
pub fn can_make<S: RuleSource, L: Level>(
    source: &S,
    marks: &[u8],
    levels: &LevelTable<L>,
) -> Result<(), Refusal>
    ensures value { result ≡ fitting (S.meaning source.now).atoms (length marks.now) (length levels.now.entries.now) }
{
    let n = source.atoms();
    check_length(n, marks.len())?;
    check_length(n, levels.len())
}

// Can a survey be made of these tables from a certificate?
pub fn can_make_from<S: RuleSource, L: StoredLevel>(
    source: &S,
    marks: &[u8],
    levels: &LevelTable<L>,
    certificate: &[u8],
) -> Result<(), Refusal>
    ensures value { result ≡ makeable (claims_for L.WIDTH L.decode (S.meaning source.now).atoms L.KIND (length marks.now) (length levels.now.entries.now) certificate.now) }
{
    can_make(source, marks, levels)?;
    check::<L>(certificate, source.atoms())?;
    Ok(())
}

// Makes a survey with nothing marked: every atom is out and every entry is empty, whatever the tables' lengths.
pub fn make<L: Level>(marks: &mut [u8], levels: &mut LevelTable<L>)
    ensures marks { marks.new ≡ replicate (length marks.old) 0 }
    ensures entries { levels.new.entries.now ≡ replicate (length levels.old.entries.now) None }
    ensures claimed { MadeFrom [] marks.new levels.new.entries.now }
    ensures named { levels.new.entries.ghost_name ≡ levels.old.entries.ghost_name }
{
    marks::clear(marks);
    levels.clear();
}

// Makes a survey from a certificate: the atoms that it claims are in, with their levels, and nothing else.
// Where the survey cannot be made, the certificate is left aside.
pub fn make_from<S: RuleSource, L: StoredLevel>(
    source: &S,
    marks: &mut [u8],
    levels: &mut LevelTable<L>,
    certificate: &[u8],
)
    ensures marks { marks.new ≡ made_marks (length marks.old) (claims_or_none (claims_for L.WIDTH L.decode (S.meaning source.now).atoms L.KIND (length marks.old) (length levels.old.entries.now) certificate.now)) }
    ensures entries { levels.new.entries.now ≡ made_entries (length levels.old.entries.now) (claims_or_none (claims_for L.WIDTH L.decode (S.meaning source.now).atoms L.KIND (length marks.old) (length levels.old.entries.now) certificate.now)) }
    ensures claimed { MadeFrom (claims_or_none (claims_for L.WIDTH L.decode (S.meaning source.now).atoms L.KIND (length marks.old) (length levels.old.entries.now) certificate.now)) marks.new levels.new.entries.now }
    ensures named { levels.new.entries.ghost_name ≡ levels.old.entries.ghost_name }
{
    let answer = can_make_from(source, marks, levels, certificate);
    make(marks, levels);
    if answer.is_ok() {
        put_claims(source.atoms(), marks, levels, certificate);
    }
}

// Puts in what a checked certificate for n atoms claims.
fn put_claims<L: StoredLevel>(
    n: u16,
    marks: &mut [u8],
    levels: &mut LevelTable<L>,
    certificate: &[u8],
)
    requires checked { is_ok (claims_in L.WIDTH L.decode n L.KIND certificate.now) ≡ true }
    ensures marks { marks.new ≡ with_claims marks.old (claims_or_none (claims_in L.WIDTH L.decode n L.KIND certificate.now)) }
    ensures entries { levels.new.entries.now ≡ with_levels levels.old.entries.now (claims_or_none (claims_in L.WIDTH L.decode n L.KIND certificate.now)) }
    ensures named { levels.new.entries.ghost_name ≡ levels.old.entries.ghost_name }
{
    'claims: for claim in claims_of::<L>(certificate, HEAD_BYTES) {
        marks::put_in(marks, claim.atom);
        put_entry(levels, claim.atom, claim.level);
    }
}

// Gives an atom the level of an entry, where it holds one.
fn put_entry<L: Level>(levels: &mut LevelTable<L>, atom: u16, entry: Entry<L>)
    ensures after { levels.new.entries.now ≡ with_entry levels.old.entries.now atom entry }
    ensures named { levels.new.entries.ghost_name ≡ levels.old.entries.ghost_name }
{
    if let Some(level) = entry {
        levels.put(atom, level);
    }
}
