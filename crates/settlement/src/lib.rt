// Settle: ranks the marked set round by round, or doubts the atoms that no round takes.
#![tactic(auto)]

ghost use Rattle.std.specs.Prelude.{◌≡◌, ℕ, ◌-◌, ◌≤◌, ◌&&◌, ◌==◌, if◌then◌else◌, length, Some};
ghost use Rattle.rules.specs.Tests.{tally};
ghost use Rattle.levels.specs.Table.{level_of};
ghost use Rattle.marks.specs.Marks.{marked, byte_of, sifted};
ghost use Rattle.tables.specs.Entries.{table_of};
ghost use Rattle.rankings.specs.Laws.{StableWhenRanked, StrictWhenStrong};
ghost use Rattle.settlement.specs.Laws.{SaysOfRankings};
ghost use Rattle.settlement.specs.Settle.{word_of, number_of, text_of, tables_checked, settled};
ghost use Rattle.rounds.specs.Taking.{number_in};

use levels::order::Level;
use levels::table::LevelTable;
use marks::{check_bytes, is_marked, sift};
use refusal::{Layer, Reason, Refusal, check_length};
use rounds::{number_at, take_rounds};
use rules::RuleSource;
use std::fmt;
use support::MarkedSet;

// What settle answers, each with a number: a rule, how many rounds took an atom, how many atoms are left over.
#[derive(Clone, Copy)]
pub enum Settlement {
    Broken(u16),
    Ranked(u16),
    Looped(usize),
}

impl Settlement {
    // The word by which an answer is printed.
    pub fn word(self) -> &'static str
        ensures value { result.now ≡ word_of self }
    {
        match self {
            Settlement::Broken(_) => "broken",
            Settlement::Ranked(_) => "ranked",
            Settlement::Looped(_) => "looped",
        }
    }

    // The number that is printed after the word.
    pub fn number(self) -> usize
        ensures value { result ≡ number_of self }
    {
        match self {
            Settlement::Broken(rule) => usize::from(rule),
            Settlement::Ranked(count) => usize::from(count),
            Settlement::Looped(count) => count,
        }
    }
}

// An answer is printed as its word and its number.
impl fmt::Display for Settlement {
    ghost output = { λ s. Some (text_of s) };

    fn fmt<W: fmt::Write>(&self, f: &mut fmt::Formatter<W>) -> fmt::Result {
        let word = self.word();
        let number = self.number();
        write!(f, "{word} {number}")
    }
}

// The first that applies: a broken rule, marked atoms that no round takes, more rounds than rungs, a ranking.
#[tactic(auto, using(crate::proofs::Laws::says_of_rankings, rankings::proofs::Stable::stable_when_ranked, rankings::proofs::Strong::strict_when_strong))]
pub fn settle<S: RuleSource, L: Level>(
    source: &S,
    marks: &mut [u8],
    levels: &mut LevelTable<L>,
    rounds: &mut [u16],
) -> Result<Settlement, Refusal>
    ensures answer { result ≡ (settled L.RUNGS L.rung (S.meaning source.now) marks.old levels.old.entries.now rounds.old).answer }
    ensures marks { marks.new ≡ (settled L.RUNGS L.rung (S.meaning source.now) marks.old levels.old.entries.now rounds.old).marks }
    ensures entries { levels.new.entries.now ≡ (settled L.RUNGS L.rung (S.meaning source.now) marks.old levels.old.entries.now rounds.old).entries }
    ensures rounds { rounds.new ≡ (settled L.RUNGS L.rung (S.meaning source.now) marks.old levels.old.entries.now rounds.old).rounds }
    ensures says_of_rankings { SaysOfRankings L.RUNGS (S.meaning source.now) (marked marks.old) (tables_checked (S.meaning source.now).atoms marks.old (length levels.old.entries.now) (length rounds.old)) (settled L.RUNGS L.rung (S.meaning source.now) marks.old levels.old.entries.now rounds.old).answer (settled L.RUNGS L.rung (S.meaning source.now) marks.old levels.old.entries.now rounds.old).rounds }
    ensures stable_when_ranked { StableWhenRanked (S.meaning source.now) }
    ensures strict_when_strong { StrictWhenStrong (S.meaning source.now) }
    ensures named { levels.new.entries.ghost_name ≡ levels.old.entries.ghost_name }
{
    let n = source.atoms();
    check_tables(n, marks, levels.len(), rounds.len())?;
    let set = MarkedSet { source, marks };
    if let Some(rule) = set.lowest_broken() {
        return Ok(Settlement::Broken(rule));
    }
    let needed = take_rounds(source, marks, rounds)?;
    let left = count_left(n, marks, rounds);
    if left > 0 {
        doubt_left(n, marks, rounds);
        return Ok(Settlement::Looped(left));
    }
    if u32::from(needed) > L::RUNGS {
        return Err(Layer::Survey.refuse(Reason::Rounds, usize::from(needed)));
    }
    put_rungs(n, levels, rounds);
    Ok(Settlement::Ranked(needed))
}

// Refuses tables that do not have one entry for each atom, and mark bytes without a meaning.
fn check_tables(n: u16, marks: &[u8], entries: usize, rounds: usize) -> Result<(), Refusal>
    ensures value { result ≡ tables_checked n marks.now entries rounds }
{
    check_length(n, marks.len())?;
    check_length(n, entries)?;
    check_length(n, rounds)?;
    check_bytes(marks)
}

// How many marked atoms no round took.
fn count_left(n: u16, marks: &[u8], rounds: &[u16]) -> usize
    ensures value { result ≡ tally (λ a. marked marks.now a && number_in rounds.now a == 0) n }
{
    (1..=n)
        .filter(|atom| is_marked(marks, *atom) && number_at(rounds, *atom) == 0)
        .count()
}

// Doubts each marked atom that no round took, and ends the doubt of each other.
fn doubt_left(n: u16, marks: &mut [u8], rounds: &[u16])
    requires { length marks.old ≡ n }
    ensures after { marks.new ≡ table_of (λ a. sifted (number_in rounds.now a == 0) (byte_of marks.old a)) n }
{
    'atoms: for atom in 1..=n {
        sift(marks, atom, number_at(rounds, atom) == 0);
    }
}

// Gives each atom that a round took the rung of that round.
fn put_rungs<L: Level>(n: u16, levels: &mut LevelTable<L>, rounds: &[u16])
    requires entries { length levels.old.entries.now ≡ n }
    requires few { (a : ℕ) → number_in rounds.now a ≤ L.RUNGS }
    ensures after { levels.new.entries.now ≡ table_of (λ a. if number_in rounds.now a == 0 then level_of levels.old.entries.now a else Some (L.rung (number_in rounds.now a))) n }
    ensures named { levels.new.entries.ghost_name ≡ levels.old.entries.ghost_name }
{
    'atoms: for atom in 1..=n {
        if let Some(rung) = L::rung_at(u32::from(number_at(rounds, atom))) {
            levels.put(atom, rung);
        }
    }
}
