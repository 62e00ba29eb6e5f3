// Rule sources: what judge, and every later call, reads rules from.
#![tactic(auto)]

ghost use Rattle.std.specs.Prelude.{◌≡◌, length};
ghost use Rattle.rules.specs.Program.{Program, Lawful};
ghost use Rattle.rules.specs.Questions.{head_at, positive_at, negative_at};

pub mod part;

// A source has at most this many atoms and rules.

pub const MAX_ATOMS: u16 = 4096;

pub const MAX_RULES: u16 = 16384;

// A source stands for a lawful program, its meaning, and each question is answered by that meaning.
// Rules are numbered from 1 and positions in a part from 0; what lies outside is absent.
pub trait RuleSource {
    ghost meaning: { Self → Program };

    ghost lawful: { (s : Self) → Lawful (meaning s) };

    // The number of atoms.
    fn atoms(&self) -> u16
        ensures value { result ≡ (meaning self.now).atoms };

    // The number of rules.
    fn rules(&self) -> u16
        ensures value { result ≡ length (meaning self.now).rules };

    // The head of a rule; 0 is that of a constraint.
    fn head(&self, rule: u16) -> Option<u16>
        ensures value { result ≡ head_at (meaning self.now) rule };

    // The atom at a position of a rule's positive part.
    fn positive(&self, rule: u16, position: u16) -> Option<u16>
        ensures value { result ≡ positive_at (meaning self.now) rule position };

    // The atom at a position of a rule's negative part.
    fn negative(&self, rule: u16, position: u16) -> Option<u16>
        ensures value { result ≡ negative_at (meaning self.now) rule position };
}
