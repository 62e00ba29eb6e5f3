// Reading a program file: every check in its order, and an index of where the rules begin.
ghost use Rattle.std.specs.Prelude.{◌≡◌, ℕ, ◌+◌, ◌-◌, ◌*◌, ◌<◌, ◌≤◌, ◌&&◌, true, cond, length, nat_le, replicate, if◌then◌else◌, None};
ghost use Rattle.std.specs.List.{slice_get};
ghost use Rattle.refusal.specs.declared.Reason.TheVariants.{Atom, Order};
ghost use Rattle.refusal.specs.declared.Layer.TheVariants.{Program as ProgramLayer};
ghost use Rattle.records.specs.Words.{words};
ghost use Rattle.rules.specs.Program.{within, ascending, disjoint};
ghost use Rattle.rules.specs.Tests.{all};
ghost use Rattle.program.specs.Reading.{file_head, opened, Fitting, opened_rule, rule_length, atoms_fault, rule_of, ended, checked, rules_from, program_in};
ghost use Rattle.program.specs.Index.{indexed, indexed_from};
ghost use Rattle.program.specs.Relation.{ReadsExactly};

use crate::parts::{all_within, ascends_within};
use records::kind::RecordKind;
use records::rest::{self, HEAD_SIZE, Reader};
use records::{read_word, word};
use refusal::{Layer, Reason, Refusal};
use tables::entry;

// A file has at most this many atoms and rules.

pub const MAX_ATOMS: u16 = rules::MAX_ATOMS;

pub const MAX_RULES: u16 = 8000;

// The index has a place for each rule.
const STARTS: usize = MAX_RULES as usize;

// What the head record states.
#[derive(Clone, Copy)]
pub struct FileHead {
    pub atoms: u16,
    pub rules: u16,
}

// What a rule's record states: its length, and its positive count.
#[derive(Clone, Copy)]
pub struct RuleRecord {
    pub size: u16,
    pub positive: u16,
}

// Where the rules of a checked file begin.
#[derive(Clone, Copy)]
pub struct Index {
    atoms: u16,
    count: u16,
    // a table with a count beside it: an index is `Copy`, on which callers rely, and an `ArrayVec` is not
    starts: [u16; STARTS],
}

impl Index {
    // The number of atoms.
    pub fn atoms(&self) -> u16
        ensures value { result ≡ self.now.atoms }
    {
        self.atoms
    }

    // The number of rules.
    pub fn rules(&self) -> u16
        ensures value { result ≡ self.now.count }
    {
        self.count
    }

    // The first byte of a rule's record.
    pub fn start_of(&self, rule: u16) -> Option<u16>
        ensures value { result ≡ (if within self.now.count rule then slice_get self.now.starts (rule - 1) else None) }
    {
        if rule > self.count {
            return None;
        }
        entry(&self.starts, rule)
    }
}

// The reader of a program file.
struct ProgramReader;

impl Reader for ProgramReader {
    ghost layer = { ProgramLayer };

    fn layer() -> Layer {
        Layer::Program
    }
}

// What is left of a program file.
type Rest<'a> = rest::Rest<'a, ProgramReader>;

// Checks a program file, and tells where its rules begin.
pub fn check(bytes: &[u8]) -> Result<Index, Refusal>
    ensures value { result ≡ indexed (program_in bytes.now) }
    ensures exact { ReadsExactly bytes.now }
{
    let file = Rest::of(bytes)?;
    let head = head_of(file)?;
    read_rules(file.after(HEAD_SIZE), head)
}

// The head record: cut, kind, length, contents, limits.
fn head_of(file: Rest<'_>) -> Result<FileHead, Refusal>
    requires begins { file.place ≡ 0 }
    ensures value { result ≡ file_head file.entry.bytes.now }
{
    let (atoms, rules) = file.read_head(RecordKind::ProgramHead)?;
    if atoms > MAX_ATOMS || rules > MAX_RULES {
        return Err(file.refuse(Reason::Limit));
    }
    Ok(FileHead { atoms, rules })
}

// The rule's record that stands here, or none at the end: cut, kind, length, contents, positive count.
fn open_record(rest: Rest<'_>) -> Result<Option<RuleRecord>, Refusal>
    ensures value { result ≡ opened rest.entry.bytes.now rest.entry.place }
    ensures fitting { Fitting rest.entry.bytes.now result }
{
    // a `match`, since `map` with `transpose` says no plainer that the end goes on as it is
    match rest.open(RecordKind::Rule)? {
        Some(size) => open_rule(rest, size),
        None => Ok(None),
    }
}

// The record of a rule, which is `size` long.
fn open_rule(rest: Rest<'_>, size: u16) -> Result<Option<RuleRecord>, Refusal>
    ensures value { result ≡ opened_rule rest.entry.bytes.now rest.entry.place size }
    ensures fitting { Fitting rest.entry.bytes.now result }
{
    if size < 4 || size > 514 || size % 2 != 0 {
        return Err(rest.refuse(Reason::Length));
    }
    if rest.bytes.len() < 4 + usize::from(size) {
        return Err(rest.refuse(Reason::Cut));
    }
    let positive = read_word(rest.bytes, 6).ok_or(rest.refuse(Reason::Cut))?;
    if 2 * usize::from(positive) + 4 > usize::from(size) {
        return Err(rest.refuse(Reason::Length));
    }
    Ok(Some(RuleRecord { size, positive }))
}

// The atoms of a rule record: known, ascending in each part, and in one part only.
#[tactic(auto, using(crate::proofs::Walks::fit, crate::proofs::Walks::unfit))]
fn check_atoms(rest: Rest<'_>, rule: RuleRecord, n: u16) -> Result<(), Refusal>
    requires whole { 4 + rule.size ≤ length rest.bytes.now }
    requires counted { 2 * rule.positive + 4 ≤ rule.size }
    ensures value { result ≡ checked rest.entry.place (atoms_fault n (rule_of rest.entry.bytes.now rule.size rule.positive)) }
{
    let middle = 8 + 2 * usize::from(rule.positive);
    let left = &rest.bytes[8..middle];
    let right = &rest.bytes[middle..4 + usize::from(rule.size)];
    let head = read_word(rest.bytes, 4).unwrap_or(0);
    if !are_fit(head, left, right, n) {
        return Err(rest.refuse(why_unfit(head, left, right, n)));
    }
    if !are_disjoint(left, right) {
        return Err(rest.refuse(Reason::BothParts));
    }
    Ok(())
}

// Is each atom known, and does each part ascend?
fn are_fit(head: u16, left: &[u8], right: &[u8], n: u16) -> bool
    ensures value { result ≡ (nat_le head n && ((ascending (words left.now) && all (within n) (words left.now)) && (ascending (words right.now) && all (within n) (words right.now)))) }
{
    head <= n && ascends_within(left, n) && ascends_within(right, n)
}

// Which of these fails first: that each atom is known, before that each part ascends.
fn why_unfit(head: u16, left: &[u8], right: &[u8], n: u16) -> Reason
    ensures value { result ≡ cond (nat_le head n && (all (within n) (words left.now) && all (within n) (words right.now))) Order Atom }
{
    if head > n || !all_within(left, n) || !all_within(right, n) {
        Reason::Atom
    } else {
        Reason::Order
    }
}

// The end record: as many rules as stated, and nothing after it.
fn check_end(rest: Rest<'_>, count: u16, stated: u16) -> Result<(), Refusal>
    ensures value { result ≡ ended rest.entry.bytes.now rest.entry.place count stated }
{
    if count != stated {
        return Err(rest.refuse(Reason::RuleCount));
    }
    rest.check_end()
}

// Do the two parts, each ascending, have no atom in common? A merge, in steps linear in both parts; a chain would compare each
// atom of one with each of the other.
fn are_disjoint(left: &[u8], right: &[u8]) -> bool
    requires left { ascending (words left.now) ≡ true }
    requires right { ascending (words right.now) ≡ true }
    ensures value { result ≡ disjoint (words left.now) (words right.now) }
{
    let mut one = left;
    let mut other = right;
    loop {
        let [a, b, one_tail @ ..] = one else {
            return true;
        };
        let [c, d, other_tail @ ..] = other else {
            return true;
        };
        let first = word(*a, *b);
        let second = word(*c, *d);
        if first == second {
            return false;
        }
        if first < second {
            one = one_tail;
        } else {
            other = other_tail;
        }
    }
}

// The records after the head, to the end of the file.
#[tactic(auto, using(crate::proofs::Rules::turn_refused, crate::proofs::Rules::turn_full, crate::proofs::Rules::turn_end))]
fn read_rules(records: Rest<'_>, head: FileHead) -> Result<Index, Refusal>
    requires small { records.place + length records.bytes.now ≤ 65000 }
    ensures value { result ≡ indexed_from head.atoms (replicate 8000 0) 0 records.entry.place (rules_from 8000 head.atoms head.rules 0 records.entry.bytes.now records.entry.place) }
{
    let mut starts = [0u16; STARTS];
    let mut count = 0u16;
    let mut rest = records;
    'records: while let Some(rule) = open_record(rest)? {
        if count >= MAX_RULES {
            return Err(rest.refuse(Reason::Limit));
        }
        check_atoms(rest, rule, head.atoms)?;
        starts[usize::from(count)] = rest.place as u16;
        // kept by hand: the next turn compares it, and it numbers the entry; an iterator over records, each of which may be
        // refused, would be no plainer
        count += 1;
        rest = rest.after(rule.size);
    }
    check_end(rest, count, head.rules)?;
    Ok(Index {
        atoms: head.atoms,
        count,
        starts,
    })
}
