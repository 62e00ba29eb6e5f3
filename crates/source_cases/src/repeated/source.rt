// The repeated fact as a rule source.
ghost use Rattle.source_cases.specs.Repeated.{repeated};
ghost use Rattle.source_cases.specs.Lawful.{repeated_lawful};

use crate::repeated::Repeated;
use rules::{MAX_RULES, RuleSource};

impl RuleSource for Repeated {
    ghost meaning = { repeated };

    ghost lawful = { repeated_lawful };

    fn atoms(&self) -> u16 {
        100
    }

    fn rules(&self) -> u16 {
        self.rules.min(MAX_RULES)
    }

    fn head(&self, rule: u16) -> Option<u16> {
        if rule == 0 || rule > self.rules() {
            return None;
        }
        Some(1)
    }

    // A fact has no body.

    fn positive(&self, _rule: u16, _position: u16) -> Option<u16> {
        None
    }

    fn negative(&self, _rule: u16, _position: u16) -> Option<u16> {
        None
    }
}
