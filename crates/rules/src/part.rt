// The parts of a rule, walked until a position is absent.
#![tactic(auto)]

ghost use Rattle.std.specs.Prelude.{◌≡◌};
ghost use Rattle.std.specs.Iterator.{YieldsFirst, item_count};
ghost use Rattle.rules.specs.Parts.{part_of, atoms_left};

use crate::RuleSource;

// Which part of a body is asked for.
#[derive(Clone, Copy)]
pub enum Part {
    Positive,
    Negative,
}

// The atoms of a part of a rule, from a position on.
#[derive(Drop)]
pub struct PartAtoms<'a, S> {
    source: &'a S,
    rule: u16,
    part: Part,
    position: u16,
}

// The atoms of a part of a rule, from the first on; an absent rule has none.
pub fn atoms_of<S: RuleSource>(source: &S, rule: u16, part: Part) -> PartAtoms<'_, S>
    ensures value { atoms_left S.meaning result ≡ part_of (S.meaning source.now) rule part }
{
    PartAtoms {
        source,
        rule,
        part,
        position: 0,
    }
}

impl<'a, S: RuleSource> Iterator for PartAtoms<'a, S> {
    type Item = u16;

    ghost next_gives = { YieldsFirst (atoms_left S.meaning) };

    ghost remaining = { item_count (atoms_left S.meaning) };

    #[inline(always)]
    fn next(&mut self) -> Option<u16> {
        let atom = match self.part {
            Part::Positive => self.source.positive(self.rule, self.position),
            Part::Negative => self.source.negative(self.rule, self.position),
        }?;
        self.position += 1;
        Some(atom)
    }
}
