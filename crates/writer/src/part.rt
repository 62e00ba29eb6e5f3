// The parts of a rule, counted and put in a block.
ghost use Rattle.std.specs.Prelude.{◌≡◌, ◌+◌, ◌*◌, ◌≤◌, ◌++◌, length};
ghost use Rattle.records.specs.Words.{word_bytes};
ghost use Rattle.rules.specs.Parts.{part_of};

use crate::block::{Block, push_number};
use rules::RuleSource;
use rules::part::{Part, atoms_of};

// How many atoms a part has.
pub(crate) fn count_atoms<S: RuleSource>(source: &S, rule: u16, part: Part) -> usize
    ensures value { result ≡ length (part_of (S.meaning source.now) rule part) }
{
    atoms_of(source, rule, part).count()
}

// Puts the atoms of a part after what the block has.
pub(crate) fn push_atoms<S: RuleSource>(source: &S, rule: u16, part: Part, block: &mut Block)
    requires room { length block.old.items + 2 * length (part_of (S.meaning source.now) rule part) ≤ 518 }
    ensures after { block.new.items ≡ block.old.items ++ word_bytes (part_of (S.meaning source.now) rule part) }
{
    for atom in atoms_of(source, rule, part) {
        push_number(block, atom);
    }
}
