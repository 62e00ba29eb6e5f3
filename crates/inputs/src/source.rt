// The input layer as a rule source.
ghost use Rattle.std.specs.Prelude.{◌≡◌};
ghost use Rattle.inputs.specs.Layer.{with_inputs, fact_at};
ghost use Rattle.inputs.specs.Lawful.{with_inputs_lawful};

use crate::Inputs;
use crate::walks::{atom_at, count_atoms};
use rules::{MAX_RULES, RuleSource};

impl<S: RuleSource> RuleSource for Inputs<S> {
    ghost meaning = { λ s. with_inputs (S.RuleSource.meaning s.below) s.inputs.items };

    ghost lawful = { λ s. with_inputs_lawful (S.RuleSource.meaning s.below) s.inputs.items (S.RuleSource.lawful s.below) };

    fn atoms(&self) -> u16 {
        self.below.atoms()
    }

    fn rules(&self) -> u16 {
        let facts = count_atoms(self.atoms(), self.inputs.as_slice());
        (self.below.rules() + facts).min(MAX_RULES)
    }

    fn head(&self, rule: u16) -> Option<u16> {
        self.below.head(rule).or_else(|| self.fact_head(rule))
    }

    // A fact has no body, so the parts are those of the rules below.

    fn positive(&self, rule: u16, position: u16) -> Option<u16> {
        self.below.positive(rule, position)
    }

    fn negative(&self, rule: u16, position: u16) -> Option<u16> {
        self.below.negative(rule, position)
    }
}

impl<S: RuleSource> Inputs<S> {
    // The head of a rule that is a fact of this layer.
    fn fact_head(&self, rule: u16) -> Option<u16>
        ensures value { result ≡ fact_at (S.meaning self.now.below) self.now.inputs.items rule }
    {
        let below = self.below.rules();
        if rule <= below || rule > MAX_RULES {
            return None;
        }
        atom_at(self.atoms(), self.inputs.as_slice(), rule - below - 1)
    }
}
