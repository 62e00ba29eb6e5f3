// A source and the marks of its atoms: which rules are broken, and which support an atom.
#![tactic(auto)]

ghost use Rattle.std.specs.Prelude.{◌≡◌, not};
ghost use Rattle.rules.specs.Questions.{negative_part, rule_at};
ghost use Rattle.rules.specs.Tests.{any};
ghost use Rattle.marks.specs.Marks.{marked};
ghost use Rattle.support.specs.Rules.{body_at, supports_at, is_broken, lowest_broken};

pub mod heads;

use marks::is_marked;
use rules::RuleSource;
use rules::part::{Part, atoms_of};

// A source and the marks of a set of its atoms.
#[derive(Drop)]
pub struct MarkedSet<'a, S> {
    pub source: &'a S,
    pub marks: &'a [u8],
}

impl<S: RuleSource> MarkedSet<'_, S> {
    // The lowest broken rule.
    pub fn lowest_broken(&self) -> Option<u16>
        ensures value { result ≡ lowest_broken (S.meaning self.now.source.now) (marked self.now.marks.now) }
    {
        (1..=self.source.rules()).find(|rule| self.is_broken(*rule))
    }

    // Is the rule there, and broken? Head 0 is a constraint's, as in files and definitions, so a head is a number and no enum.
    fn is_broken(&self, rule: u16) -> bool
        ensures value { result ≡ is_broken (marked self.now.marks.now) (rule_at (S.meaning self.now.source.now) rule) }
    {
        self.source
            .head(rule)
            .is_some_and(|head| head == 0 || !is_marked(self.marks, head))
            && self.body_holds(rule)
    }

    // Is the body of the rule true?
    pub fn body_holds(&self, rule: u16) -> bool
        ensures value { result ≡ body_at (S.meaning self.now.source.now) (marked self.now.marks.now) rule }
    {
        atoms_of(self.source, rule, Part::Positive).all(|atom| is_marked(self.marks, atom))
            && self.negative_part_holds(rule)
    }

    // Is no atom of the rule's negative part marked?
    pub fn negative_part_holds(&self, rule: u16) -> bool
        ensures value { result ≡ not (any (marked self.now.marks.now) (negative_part (S.meaning self.now.source.now) rule)) }
    {
        !atoms_of(self.source, rule, Part::Negative).any(|atom| is_marked(self.marks, atom))
    }

    // Does the rule support the atom?
    pub fn supports(&self, atom: u16, rule: u16) -> bool
        ensures value { result ≡ supports_at (S.meaning self.now.source.now) (marked self.now.marks.now) atom rule }
    {
        self.source.head(rule) == Some(atom) && is_marked(self.marks, atom) && self.body_holds(rule)
    }
}
