// Refute: do the doubted atoms show that the marked set is no stable set?
#![tactic(auto)]

ghost use Rattle.std.specs.Prelude.{◌≡◌, ◌≤◌, Some};
ghost use Rattle.marks.specs.Marks.{doubted, marked};
ghost use Rattle.support.specs.Chains.{by_head};
ghost use Rattle.refutation.specs.Refute.{word_of, number_of, text_of, frees_at, freeing_rule, lowest_escape, refuted, AcceptsNoStable};

use marks::{check_bytes, count_doubted, is_doubted};
use refusal::{Refusal, check_length};
use rules::RuleSource;
use rules::part::{Part, atoms_of};
use std::fmt;
use support::MarkedSet;
use support::heads::RulesByHead;

// A doubted atom, and a rule that supports it without a doubted positive atom.
#[derive(Clone, Copy)]
pub struct Escape {
    pub atom: u16,
    pub rule: u16,
}

// What refute answers.
#[derive(Clone, Copy)]
pub enum Refutation {
    Undoubted,
    Escaped(Escape),
    Accepted(usize),
}

impl Refutation {
    // The word by which an answer is printed.
    pub fn word(self) -> &'static str
        ensures value { result.now ≡ word_of self }
    {
        match self {
            Refutation::Undoubted => "undoubted",
            Refutation::Escaped(_) => "escape",
            Refutation::Accepted(_) => "accepted",
        }
    }

    // The number that is printed after the word.
    pub fn number(self) -> usize
        ensures value { result ≡ number_of self }
    {
        match self {
            Refutation::Undoubted => 0,
            Refutation::Escaped(escape) => usize::from(escape.atom),
            Refutation::Accepted(count) => count,
        }
    }
}

// An answer is printed as its word and its number, and for an escape the rule.
impl fmt::Display for Refutation {
    ghost output = { λ r. Some (text_of r) };

    fn fmt<W: fmt::Write>(&self, f: &mut fmt::Formatter<W>) -> fmt::Result {
        match *self {
            Refutation::Undoubted => write!(f, "undoubted 0"),
            Refutation::Escaped(Escape { atom, rule }) => write!(f, "escape {atom} {rule}"),
            Refutation::Accepted(count) => write!(f, "accepted {count}"),
        }
    }
}

// The first that applies: no atom is doubted, a doubted atom escapes, acceptance.
pub fn refute<S: RuleSource>(source: &S, marks: &[u8]) -> Result<Refutation, Refusal>
    ensures value { result ≡ refuted (S.meaning source.now) marks.now }
    ensures accepted_is_not_stable { AcceptsNoStable (S.meaning source.now) (marked marks.now) result }
{
    check_length(source.atoms(), marks.len())?;
    check_bytes(marks)?;
    let count = count_doubted(marks);
    if count == 0 {
        return Ok(Refutation::Undoubted);
    }
    let set = MarkedSet { source, marks };
    if let Some(escape) = lowest_escape(&set) {
        return Ok(Refutation::Escaped(escape));
    }
    Ok(Refutation::Accepted(count))
}

// The lowest doubted atom that some rule supports without a doubted positive atom, and the lowest such rule.
fn lowest_escape<S: RuleSource>(set: &MarkedSet<S>) -> Option<Escape>
    ensures value { result ≡ lowest_escape (S.meaning set.now.source.now) (marked set.now.marks.now) (doubted set.now.marks.now) }
{
    let mut heads = RulesByHead::empty();
    heads.gather(set.source);
    for atom in 1..=set.source.atoms() {
        if !is_doubted(set.marks, atom) {
            continue;
        }
        if let Some(rule) = freeing_rule(set, &heads, atom) {
            return Some(Escape { atom, rule });
        }
    }
    None
}

// The lowest rule that supports the atom without a doubted positive atom.
fn freeing_rule<S: RuleSource>(set: &MarkedSet<S>, heads: &RulesByHead, atom: u16) -> Option<u16>
    requires heads { heads.now ≡ by_head (S.meaning set.now.source.now) }
    requires first { 1 ≤ atom }
    requires last { atom ≤ (S.meaning set.now.source.now).atoms }
    ensures value { result ≡ freeing_rule (S.meaning set.now.source.now) (marked set.now.marks.now) (doubted set.now.marks.now) atom }
{
    let mut next = heads.first(atom);
    'rules: while let Some(rule) = next {
        if frees(set, atom, rule) {
            return Some(rule);
        }
        next = heads.after(rule);
    }
    None
}

// Does the rule support the atom without a doubted positive atom?
fn frees<S: RuleSource>(set: &MarkedSet<S>, atom: u16, rule: u16) -> bool
    ensures value { result ≡ frees_at (S.meaning set.now.source.now) (marked set.now.marks.now) (doubted set.now.marks.now) atom rule }
{
    set.supports(atom, rule)
        && !atoms_of(set.source, rule, Part::Positive).any(|other| is_doubted(set.marks, other))
}
