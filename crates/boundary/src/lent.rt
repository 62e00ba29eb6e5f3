// Judge and settle on tables of entries that cross to C.
ghost use Rattle.std.specs.Prelude.{◌≡◌, ◌≤◌, length};
ghost use Rattle.boundary.specs.Files.{judged_kind, judged_stored, settled_kind, settled_stored};

use crate::answers::{Told, settlement_told, verdict_told};
use crate::entries::{Crossing, Stored, take_entries, tell_entries};
use levels::table::{Entry, LevelTable};
use orders::numbers::Number;
use orders::routes::Route;
use rules::RuleSource;
use settlement::settle;
use verdict::judge;

// A table that crosses has at most this many entries: one more than the atoms of a program.
pub(crate) const TABLE: usize = 4097;

// Judges the marks by the levels that cross, routes or numbers.
pub(crate) fn judge_kind<S: RuleSource>(
    source: &S,
    routes: bool,
    marks: &[u8],
    stored: &[Stored],
) -> Told
    requires few { length stored.now ≤ 4097 }
    ensures value { result ≡ judged_kind routes (S.meaning source.now) marks.now stored.now }
{
    if routes {
        let mut entries: [Entry<Route>; TABLE] = [None; TABLE];
        judge_in::<S, Route>(source, marks, stored, &mut entries[..stored.len()])
    } else {
        let mut entries: [Entry<Number>; TABLE] = [None; TABLE];
        judge_in::<S, Number>(source, marks, stored, &mut entries[..stored.len()])
    }
}

// The same in a table for as many entries as cross.
fn judge_in<S: RuleSource, L: Crossing>(
    source: &S,
    marks: &[u8],
    stored: &[Stored],
    entries: &mut [Entry<L>],
) -> Told
    requires sized { length entries.old ≡ length stored.now }
    ensures value { result ≡ judged_stored L.Level.below L.of_number (S.meaning source.now) marks.now stored.now }
{
    take_entries(entries, stored);
    let levels = LevelTable::over(entries);
    verdict_told(judge(source, marks, &levels))
}

// Settles the marks on levels that cross, routes or numbers.
pub(crate) fn settle_kind<S: RuleSource>(
    source: &S,
    routes: bool,
    marks: &mut [u8],
    stored: &mut [Stored],
    rounds: &mut [u16],
) -> Told
    requires few { length stored.old ≤ 4097 }
    ensures value { result ≡ (settled_kind routes (S.meaning source.now) marks.old stored.old rounds.old).answer }
    ensures marks { marks.new ≡ (settled_kind routes (S.meaning source.now) marks.old stored.old rounds.old).marks }
    ensures stored { stored.new ≡ (settled_kind routes (S.meaning source.now) marks.old stored.old rounds.old).stored }
    ensures rounds { rounds.new ≡ (settled_kind routes (S.meaning source.now) marks.old stored.old rounds.old).rounds }
{
    let many = stored.len();
    if routes {
        let mut entries: [Entry<Route>; TABLE] = [None; TABLE];
        settle_in::<S, Route>(source, marks, stored, rounds, &mut entries[..many])
    } else {
        let mut entries: [Entry<Number>; TABLE] = [None; TABLE];
        settle_in::<S, Number>(source, marks, stored, rounds, &mut entries[..many])
    }
}

// The same in a table for as many entries as cross.
fn settle_in<S: RuleSource, L: Crossing>(
    source: &S,
    marks: &mut [u8],
    stored: &mut [Stored],
    rounds: &mut [u16],
    entries: &mut [Entry<L>],
) -> Told
    requires sized { length entries.old ≡ length stored.old }
    ensures value { result ≡ (settled_stored L.Level.RUNGS L.Level.rung L.of_number L.number_of (S.meaning source.now) marks.old stored.old rounds.old).answer }
    ensures marks { marks.new ≡ (settled_stored L.Level.RUNGS L.Level.rung L.of_number L.number_of (S.meaning source.now) marks.old stored.old rounds.old).marks }
    ensures stored { stored.new ≡ (settled_stored L.Level.RUNGS L.Level.rung L.of_number L.number_of (S.meaning source.now) marks.old stored.old rounds.old).stored }
    ensures rounds { rounds.new ≡ (settled_stored L.Level.RUNGS L.Level.rung L.of_number L.number_of (S.meaning source.now) marks.old stored.old rounds.old).rounds }
{
    take_entries(entries, stored);
    let answer = settle(source, marks, &mut LevelTable::over(entries), rounds);
    tell_entries(entries, stored);
    settlement_told(answer)
}
