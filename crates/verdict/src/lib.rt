// Judge: is the marked set a stable set, by the levels that are claimed for it?
#![tactic(auto)]

ghost use Rattle.std.specs.Prelude.{◌≡◌, Some};
ghost use Rattle.rules.specs.Tests.{lowest};
ghost use Rattle.marks.specs.Marks.{marked};
ghost use Rattle.support.specs.Chains.{by_head};
ghost use Rattle.verdict.specs.Judge.{word_of, number_of, text_of, tables_checked, both_below, unlevelled, ungrounded, judged, AcceptsOnlyStable};

use levels::order::Level;
use levels::table::LevelTable;
use marks::{check_bytes, count_marked, is_marked};
use refusal::{Refusal, check_length};
use rules::RuleSource;
use rules::part::{Part, atoms_of};
use std::fmt;
use support::MarkedSet;
use support::heads::RulesByHead;

// What judge answers, each with a number: a rule, an atom, an atom, how many atoms are marked.
#[derive(Clone, Copy)]
pub enum Verdict {
    Broken(u16),
    Unlevelled(u16),
    Ungrounded(u16),
    Accepted(usize),
}

impl Verdict {
    // The word by which a verdict is printed.
    pub fn word(self) -> &'static str
        ensures value { result.now ≡ word_of self }
    {
        match self {
            Verdict::Broken(_) => "broken",
            Verdict::Unlevelled(_) => "unlevelled",
            Verdict::Ungrounded(_) => "ungrounded",
            Verdict::Accepted(_) => "accepted",
        }
    }

    // The number that is printed after the word.
    pub fn number(self) -> usize
        ensures value { result ≡ number_of self }
    {
        match self {
            Verdict::Broken(rule) => usize::from(rule),
            Verdict::Unlevelled(atom) | Verdict::Ungrounded(atom) => usize::from(atom),
            Verdict::Accepted(count) => count,
        }
    }
}

// A verdict is printed as its word and its number.
impl fmt::Display for Verdict {
    ghost output = { λ v. Some (text_of v) };

    fn fmt<W: fmt::Write>(&self, f: &mut fmt::Formatter<W>) -> fmt::Result {
        let word = self.word();
        let number = self.number();
        write!(f, "{word} {number}")
    }
}

// The first that applies: a broken rule, a marked atom without a level, an ungrounded atom, acceptance.
pub fn judge<S: RuleSource, L: Level>(
    source: &S,
    marks: &[u8],
    levels: &LevelTable<L>,
) -> Result<Verdict, Refusal>
    ensures value { result ≡ judged L.below (S.meaning source.now) marks.now levels.now.entries.now }
    ensures accepted_is_stable { AcceptsOnlyStable (S.meaning source.now) (marked marks.now) result }
{
    let atoms = source.atoms();
    check_tables(atoms, marks, levels.len())?;
    let set = MarkedSet { source, marks };
    if let Some(rule) = set.lowest_broken() {
        return Ok(Verdict::Broken(rule));
    }
    if let Some(atom) = lowest_unlevelled(atoms, marks, levels) {
        return Ok(Verdict::Unlevelled(atom));
    }
    if let Some(atom) = find_ungrounded(&set, levels) {
        return Ok(Verdict::Ungrounded(atom));
    }
    Ok(Verdict::Accepted(count_marked(marks)))
}

// Refuses tables that do not have one entry for each atom, and mark bytes without a meaning.
fn check_tables(atoms: u16, marks: &[u8], entries: usize) -> Result<(), Refusal>
    ensures value { result ≡ tables_checked atoms marks.now entries }
{
    check_length(atoms, marks.len())?;
    check_length(atoms, entries)?;
    check_bytes(marks)
}

// The lowest marked atom that no rule supports by atoms of lower levels, once the rules of each atom are gathered.
fn find_ungrounded<S: RuleSource, L: Level>(
    set: &MarkedSet<S>,
    levels: &LevelTable<L>,
) -> Option<u16>
    ensures value { result ≡ lowest (ungrounded L.below (S.meaning set.now.source.now) (marked set.now.marks.now) levels.now.entries.now) (S.meaning set.now.source.now).atoms }
{
    // gathered where they stand: an index that is moved is copied
    let mut heads = RulesByHead::empty();
    heads.gather(set.source);
    lowest_ungrounded(set, levels, &heads)
}

// The lowest marked atom that no rule supports by atoms of lower levels.
fn lowest_ungrounded<S: RuleSource, L: Level>(
    set: &MarkedSet<S>,
    levels: &LevelTable<L>,
    heads: &RulesByHead,
) -> Option<u16>
    requires heads { heads.now ≡ by_head (S.meaning set.now.source.now) }
    ensures value { result ≡ lowest (ungrounded L.below (S.meaning set.now.source.now) (marked set.now.marks.now) levels.now.entries.now) (S.meaning set.now.source.now).atoms }
{
    // Three labelled loops by a rule of the project: each way out names the loop that it leaves.
    // The rules that `heads` gives for an atom have it for their head, so only their parts are asked.
    'atoms: for atom in 1..=set.source.atoms() {
        if !is_marked(set.marks, atom) {
            continue 'atoms;
        }
        let own = levels.level(atom);
        let mut next = heads.first(atom);
        'rules: while let Some(rule) = next {
            next = heads.after(rule);
            if !set.negative_part_holds(rule) {
                continue 'rules;
            }
            'positive: for other in atoms_of(set.source, rule, Part::Positive) {
                if !is_marked(set.marks, other) {
                    continue 'rules;
                }
                if !both_below(levels.level(other), own) {
                    continue 'rules;
                }
            }
            continue 'atoms;
        }
        return Some(atom);
    }
    None
}

// The lowest marked atom without a level.
fn lowest_unlevelled<L: Level>(atoms: u16, marks: &[u8], levels: &LevelTable<L>) -> Option<u16>
    ensures value { result ≡ lowest (unlevelled L.below (marked marks.now) levels.now.entries.now) atoms }
{
    (1..=atoms).find(|atom| is_marked(marks, *atom) && levels.level(*atom).is_none())
}

// Are both levels there, and the first below the second?
fn both_below<L: Level>(first: Option<L>, second: Option<L>) -> bool
    ensures value { result ≡ both_below L.below first second }
{
    first
        .zip(second)
        .is_some_and(|(low, high)| low.is_below(high))
}
