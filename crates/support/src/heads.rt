// The rules of each atom, as a chain through two tables.
#![tactic(auto)]

ghost use Rattle.std.specs.Prelude.{◌≡◌};
ghost use Rattle.tables.specs.Entries.{with_put};
ghost use Rattle.support.specs.Chains.{by_head, first_in, next_in, no_rules, number_at};

use rules::{MAX_ATOMS, MAX_RULES, RuleSource};
use tables::{entry, put_entry};

// There is an entry for each atom, and one for each rule.

const ATOMS: usize = MAX_ATOMS as usize;

const RULES: usize = MAX_RULES as usize;

// For each atom the first rule that has it for its head, and for each rule the next one with the same head; 0 for none, so that an
// entry has two bytes.
#[derive(Drop)]
pub struct RulesByHead {
    first: [u16; ATOMS],
    next: [u16; RULES],
}

impl RulesByHead {
    // Chains without a rule.
    pub fn empty() -> RulesByHead
        ensures value { result ≡ no_rules }
    {
        RulesByHead {
            first: [0; ATOMS],
            next: [0; RULES],
        }
    }

    // Puts together the chains of a source where they stand, since an index that is moved is copied: each from its last rule to its
    // first. Constraints have none.
    pub fn gather<S: RuleSource>(&mut self, source: &S)
        ensures after { self.new ≡ by_head (S.meaning source.now) }
    {
        *self = RulesByHead::empty();
        'rules: for rule in (1..=source.rules()).rev() {
            if let Some(head) = source.head(rule) {
                self.put(head, rule);
            }
        }
    }

    // Puts a rule before the others of its head.
    fn put(&mut self, head: u16, rule: u16)
        ensures next { self.new.next ≡ with_put self.old.next rule (number_at self.old.first head) }
        ensures first { self.new.first ≡ with_put self.old.first head rule }
    {
        let next = entry(&self.first, head).unwrap_or(0);
        put_entry(&mut self.next, rule, next);
        put_entry(&mut self.first, head, rule);
    }

    // The first rule of an atom.
    pub fn first(&self, atom: u16) -> Option<u16>
        ensures value { result ≡ first_in self.now atom }
    {
        entry(&self.first, atom).filter(|rule| *rule != 0)
    }

    // The next rule with the same head.
    pub fn after(&self, rule: u16) -> Option<u16>
        ensures value { result ≡ next_in self.now rule }
    {
        entry(&self.next, rule).filter(|next| *next != 0)
    }
}
