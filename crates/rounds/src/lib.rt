// Takes the atoms of a marked set round by round. Each rule waits for one of its positive atoms at a time, so that no body is walked twice.
#![tactic(auto)]

ghost use Rattle.std.specs.Prelude.{◌≡◌, ℕ, ◌-◌, ◌≤◌, ◌+◌, length, drop};
ghost use Rattle.rules.specs.Questions.{negative_part, positive_part};
ghost use Rattle.marks.specs.Marks.{marked};
ghost use Rattle.rankings.specs.Rounds.{round_upto, round_of, takes_some, rounds_needed};
ghost use Rattle.tables.specs.Entries.{table_of};
ghost use Rattle.waiting.specs.Waiting.{key_of, waiting_under};
ghost use Rattle.rounds.specs.Progress.{Begins, Idle, Under, first_wait, rest_holds};
ghost use Rattle.rounds.specs.TakenRounds.{all_taken};
ghost use Rattle.rounds.specs.Taking.{number_in, taken_before};

use marks::is_marked;
use refusal::{Refusal, check_length};
use rules::{MAX_RULES, RuleSource};
use standing::{Taking, Wait};
use support::MarkedSet;
use tables::{entry, put_entry};
use waiting::{KEYS, WaitingLists};

mod standing;

// What every rule waits for at first: a number above those of the atoms.
const START: u16 = KEYS;

// Writes the round of each atom, 0 where no round takes it, and answers how many rounds take an atom.
pub fn take_rounds<S: RuleSource>(
    source: &S,
    marks: &[u8],
    rounds: &mut [u16],
) -> Result<u16, Refusal>
    ensures value { result ≡ (all_taken (S.meaning source.now) marks.now rounds.old).count }
    ensures rounds { rounds.new ≡ (all_taken (S.meaning source.now) marks.now rounds.old).rounds }
{
    let n = source.atoms();
    check_length(n, marks.len())?;
    check_length(n, rounds.len())?;
    let set = MarkedSet { source, marks };
    Ok(take_all(&set, rounds))
}

// Writes the round of each atom, and answers how many rounds take an atom.
fn take_all<S: RuleSource>(set: &MarkedSet<S>, rounds: &mut [u16]) -> u16
    requires marks { length set.now.marks.now ≡ (S.meaning set.now.source.now).atoms }
    requires rounds { length rounds.old ≡ (S.meaning set.now.source.now).atoms }
    ensures value { result ≡ rounds_needed (S.meaning set.now.source.now) (marked set.now.marks.now) }
    ensures rounds { rounds.new ≡ table_of (round_of (S.meaning set.now.source.now) (marked set.now.marks.now)) (S.meaning set.now.source.now).atoms }
{
    // made here and lent: the lists are large, and what is returned would be copied
    let mut taking = Taking {
        waiting: WaitingLists::new(),
        coming: WaitingLists::new(),
        positions: [0; MAX_RULES as usize],
    };
    begin(set, rounds, &mut taking);
    let last = set.source.atoms();
    'rounds: for round in 1..=last {
        if !take_round(set, rounds, &mut taking, round) {
            return round - 1;
        }
    }
    last
}

// Before the first round: each rule waits for the start, which alone is due, and no atom is taken.
fn begin<S: RuleSource>(set: &MarkedSet<S>, rounds: &mut [u16], taking: &mut Taking)
    requires marks { length set.now.marks.now ≡ (S.meaning set.now.source.now).atoms }
    requires rounds { length rounds.old ≡ (S.meaning set.now.source.now).atoms }
    requires idle { Idle taking.old }
    ensures rounds { rounds.new ≡ table_of (round_upto (S.meaning set.now.source.now) (marked set.now.marks.now) 0) (S.meaning set.now.source.now).atoms }
    ensures under { Under (S.meaning set.now.source.now) (marked set.now.marks.now) 0 0 0 taking.new rounds.new }
{
    rounds.fill(0);
    taking.coming.add(START, 1);
    'rules: for rule in 1..=set.source.rules() {
        taking.waiting.add(rule, START);
    }
}

// Writes the round of each atom that this round takes, and answers whether there is one.
fn take_round<S: RuleSource>(
    set: &MarkedSet<S>,
    rounds: &mut [u16],
    taking: &mut Taking,
    round: u16,
) -> bool
    requires marks { length set.now.marks.now ≡ (S.meaning set.now.source.now).atoms }
    requires rounds { rounds.old ≡ table_of (round_upto (S.meaning set.now.source.now) (marked set.now.marks.now) (round - 1)) (S.meaning set.now.source.now).atoms }
    requires under { Under (S.meaning set.now.source.now) (marked set.now.marks.now) (round - 1) 0 0 taking.old rounds.old }
    requires first { 1 ≤ round }
    requires last { round ≤ (S.meaning set.now.source.now).atoms }
    ensures value { result ≡ takes_some (S.meaning set.now.source.now) (marked set.now.marks.now) round }
    ensures rounds { rounds.new ≡ table_of (round_upto (S.meaning set.now.source.now) (marked set.now.marks.now) round) (S.meaning set.now.source.now).atoms }
    ensures under { Under (S.meaning set.now.source.now) (marked set.now.marks.now) round 0 0 taking.new rounds.new }
{
    'atoms: while let Some(atom) = taking.coming.take(round) {
        ask_rules(set, rounds, taking, atom, round);
    }
    taking.coming.has(round + 1)
}

// Asks each rule that waits for the atom.
fn ask_rules<S: RuleSource>(
    set: &MarkedSet<S>,
    rounds: &mut [u16],
    taking: &mut Taking,
    atom: u16,
    round: u16,
)
    requires marks { length set.now.marks.now ≡ (S.meaning set.now.source.now).atoms }
    requires under { Under (S.meaning set.now.source.now) (marked set.now.marks.now) (round - 1) atom 0 taking.old rounds.old }
    requires some { 1 ≤ atom }
    requires first { 1 ≤ round }
    requires last { round ≤ (S.meaning set.now.source.now).atoms }
    ensures under { Under (S.meaning set.now.source.now) (marked set.now.marks.now) (round - 1) 0 0 taking.new rounds.new }
    ensures fewer { waiting_under 4098 (key_of taking.new.coming) round ≤ waiting_under 4098 (key_of taking.old.coming) round }
{
    'rules: while let Some(rule) = taking.waiting.take(atom) {
        ask_rule(set, rounds, taking, rule, round);
    }
}

// Asks one rule: it waits for its next positive atom that no earlier round took, or else takes its head.
fn ask_rule<S: RuleSource>(
    set: &MarkedSet<S>,
    rounds: &mut [u16],
    taking: &mut Taking,
    rule: u16,
    round: u16,
)
    requires marks { length set.now.marks.now ≡ (S.meaning set.now.source.now).atoms }
    requires some { 1 ≤ rule }
    requires first { 1 ≤ round }
    requires last { round ≤ (S.meaning set.now.source.now).atoms }
    ensures under { (now : ℕ) → 1 ≤ now → Under (S.meaning set.now.source.now) (marked set.now.marks.now) (round - 1) now rule taking.old rounds.old → Under (S.meaning set.now.source.now) (marked set.now.marks.now) (round - 1) now 0 taking.new rounds.new × (waiting_under 16385 (key_of taking.new.waiting) now ≤ waiting_under 16385 (key_of taking.old.waiting) now) }
    ensures fewer { waiting_under 4098 (key_of taking.new.coming) round ≤ waiting_under 4098 (key_of taking.old.coming) round }
{
    let from = position_at(&taking.positions, rule);
    if let Some(wait) = next_wait(set.source, rounds, rule, from, round) {
        put_entry(&mut taking.positions, rule, (wait.position + 1) as u8);
        taking.waiting.add(rule, wait.atom);
        return;
    }
    let Some(head) = set.source.head(rule) else {
        return;
    };
    if number_at(rounds, head) != 0 {
        return;
    }
    if rest_holds(set, head, rule) {
        put_entry(rounds, head, round);
        taking.coming.add(head, round + 1);
    }
}

// The position from which a rule is asked on.
fn position_at(positions: &[u8], rule: u16) -> u16
    ensures value { result ≡ number_in positions.now rule }
{
    u16::from(entry(positions, rule).unwrap_or(0))
}

// Does the rule support its head once all its positive atoms are taken, and so marked?
fn rest_holds<S: RuleSource>(set: &MarkedSet<S>, head: u16, rule: u16) -> bool
    ensures value { result ≡ rest_holds (marked set.now.marks.now) head (negative_part (S.meaning set.now.source.now) rule) }
{
    is_marked(set.marks, head) && set.negative_part_holds(rule)
}

// The rule's first positive atom, from a position on, that no earlier round took.
fn next_wait<S: RuleSource>(
    source: &S,
    rounds: &[u16],
    rule: u16,
    from: u16,
    round: u16,
) -> Option<Wait>
    ensures value { result ≡ first_wait (taken_before rounds.now round) from (drop from (positive_part (S.meaning source.now) rule)) }
{
    let mut position = from;
    'positive: while let Some(atom) = source.positive(rule, position) {
        if !is_taken_before(rounds, atom, round) {
            return Some(Wait { position, atom });
        }
        position += 1;
    }
    None
}

// Does the table say that a round before this one took the atom?
fn is_taken_before(rounds: &[u16], atom: u16, round: u16) -> bool
    ensures value { result ≡ taken_before rounds.now round atom }
{
    (1..round).contains(&number_at(rounds, atom))
}

// The number at a place of a table; 0 where there is none. In a table of rounds it is the round that took the atom.
pub fn number_at(table: &[u16], place: u16) -> u16
    ensures value { result ≡ number_in table.now place }
{
    entry(table, place).unwrap_or(0)
}
