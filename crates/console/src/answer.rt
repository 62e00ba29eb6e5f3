// The answer for a program file and a certificate file.
ghost use Rattle.std.specs.Prelude.{◌≡◌, length, Ok};
ghost use Rattle.certificate.specs.Reading.{stated_kind, claims_in};
ghost use Rattle.console.specs.Accepted.{AcceptsOnlyStableFiles};
ghost use Rattle.console.specs.Answer.{known_kind, judged_claims, by_program, answer_for};
ghost use Rattle.orders.specs.Numbers.{less, number_kind, number_width, number_from};
ghost use Rattle.orders.specs.Routes.{inside, route_kind, route_width, route_from};

use certificate::read_kind;
use levels::order::StoredLevel;
use levels::table::{Entry, LevelTable};
use orders::kind::LevelKind;
use orders::numbers::Number;
use orders::routes::Route;
use program::reader::MAX_ATOMS;
use program_file::file::ProgramFile;
use refusal::{Layer, Reason, Refusal};
use rules::RuleSource;
use survey::making::{can_make_from, make_from};
use verdict::{Verdict, judge};

// The tables have one entry for each atom, of which there are at most this many; they are arrays, since nothing is allocated.
const TABLE: usize = MAX_ATOMS as usize;

// Reads the program, then the certificate, and judges the survey that it makes.
pub fn answer(program: &[u8], certificate: &[u8]) -> Result<Verdict, Refusal>
    ensures value { result ≡ answer_for program.now certificate.now }
    ensures accepted_is_stable { AcceptsOnlyStableFiles program.now certificate.now result }
{
    // by reference: a file has its index inside, and each move of it is a copy
    match &ProgramFile::read(program) {
        Ok(file) => answer_over(file, certificate),
        Err(refusal) => Err(*refusal),
    }
}

// The level kind is taken from the certificate.
pub fn answer_over<S: RuleSource>(source: &S, certificate: &[u8]) -> Result<Verdict, Refusal>
    ensures value { result ≡ by_program certificate.now (Ok (S.meaning source.now)) }
{
    // an arm for each kind, since it was not proved that an array of entries of any level type fits in memory
    match level_kind(certificate, source.atoms())? {
        LevelKind::Numbers => judge_by_numbers(source, certificate),
        LevelKind::Routes => judge_by_routes(source, certificate),
    }
}

// The kind of levels that a certificate for n atoms states, where it is one of those that there are.
pub fn level_kind(certificate: &[u8], n: u16) -> Result<LevelKind, Refusal>
    ensures value { result ≡ known_kind (stated_kind n certificate.now) }
{
    let stated = read_kind(certificate, n)?;
    LevelKind::try_from(stated).map_err(|_| Layer::Certificate.refuse(Reason::LevelKind, 0))
}

// Judges what a certificate claims by numbers.
// Not inlined: the tables of a function are filled when it is entered, also those of an arm that is not taken.
#[inline(never)]
fn judge_by_numbers<S: RuleSource>(source: &S, certificate: &[u8]) -> Result<Verdict, Refusal>
    ensures value { result ≡ judged_claims less (S.meaning source.now) (claims_in number_width number_from (S.meaning source.now).atoms number_kind certificate.now) }
{
    let mut marks = [0u8; TABLE];
    let mut entries: [Entry<Number>; TABLE] = [None; TABLE];
    judge_within::<S, Number>(source, certificate, &mut marks, &mut entries)
}

// Judges what a certificate claims by routes; not inlined for the same reason.
#[inline(never)]
fn judge_by_routes<S: RuleSource>(source: &S, certificate: &[u8]) -> Result<Verdict, Refusal>
    ensures value { result ≡ judged_claims inside (S.meaning source.now) (claims_in route_width route_from (S.meaning source.now).atoms route_kind certificate.now) }
{
    let mut marks = [0u8; TABLE];
    let mut entries: [Entry<Route>; TABLE] = [None; TABLE];
    judge_within::<S, Route>(source, certificate, &mut marks, &mut entries)
}

// Judges what a certificate claims, in the first entries of tables for as many atoms as a program may have.
fn judge_within<S: RuleSource, L: StoredLevel>(
    source: &S,
    certificate: &[u8],
    marks: &mut [u8],
    entries: &mut [Entry<L>],
) -> Result<Verdict, Refusal>
    requires marks { length marks.old ≡ 4096 }
    requires entries { length entries.old ≡ 4096 }
    ensures value { result ≡ judged_claims L.Level.below (S.meaning source.now) (claims_in L.WIDTH L.decode (S.meaning source.now).atoms L.KIND certificate.now) }
{
    let n = usize::from(source.atoms());
    judge_in::<S, L>(source, certificate, &mut marks[0..n], &mut entries[0..n])
}

// The same in tables with one entry for each atom.
fn judge_in<S: RuleSource, L: StoredLevel>(
    source: &S,
    certificate: &[u8],
    marks: &mut [u8],
    entries: &mut [Entry<L>],
) -> Result<Verdict, Refusal>
    requires marks { length marks.old ≡ (S.meaning source.now).atoms }
    requires entries { length entries.old ≡ (S.meaning source.now).atoms }
    ensures value { result ≡ judged_claims L.Level.below (S.meaning source.now) (claims_in L.WIDTH L.decode (S.meaning source.now).atoms L.KIND certificate.now) }
{
    let mut levels = LevelTable::over(entries);
    can_make_from(source, marks, &levels, certificate)?;
    make_from(source, marks, &mut levels, certificate);
    judge(source, marks, &levels)
}
