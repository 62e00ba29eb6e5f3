// The records of a program file, each gathered in a block and copied to the front of the output it is given.
ghost use Rattle.std.specs.Prelude.{◌≡◌, ◌≤◌, [], length};
ghost use Rattle.program.specs.Encoding.{head_bytes, rule_bytes, end_bytes};
ghost use Rattle.writer.specs.Parts.{rule_or_empty};
ghost use Rattle.writer.specs.Writing.{laid_over};

use crate::block::{Block, block_of, copy_to, push_numbers};
use crate::part::{count_atoms, push_atoms};
use records::kind::RecordKind;
use rules::RuleSource;
use rules::part::Part;

// How many bytes the record of a rule has.
pub(crate) fn rule_size<S: RuleSource>(source: &S, rule: u16) -> usize
    ensures value { result ≡ length (rule_bytes (rule_or_empty (S.meaning source.now) rule)) }
{
    let positive = count_atoms(source, rule, Part::Positive);
    let negative = count_atoms(source, rule, Part::Negative);
    8 + 2 * (positive + negative)
}

// Writes the head record, and tells its length.
pub(crate) fn write_head<S: RuleSource>(source: &S, out: &mut [u8]) -> usize
    requires room { 8 ≤ length out.old }
    ensures value { result ≡ 8 }
    ensures after { out.new ≡ laid_over (head_bytes (S.meaning source.now)) out.old }
{
    let kind = RecordKind::ProgramHead.number();
    let block = block_of(&[4, kind, source.atoms(), source.rules()]);
    copy_to(&block, out)
}

// Writes the record of a rule, and tells its length.
pub(crate) fn write_rule<S: RuleSource>(source: &S, rule: u16, out: &mut [u8]) -> usize
    requires room { length (rule_bytes (rule_or_empty (S.meaning source.now) rule)) ≤ length out.old }
    ensures value { result ≡ length (rule_bytes (rule_or_empty (S.meaning source.now) rule)) }
    ensures after { out.new ≡ laid_over (rule_bytes (rule_or_empty (S.meaning source.now) rule)) out.old }
{
    let mut block = Block::new();
    gather_rule(source, rule, &mut block);
    copy_to(&block, out)
}

// Puts the record of a rule into a block: its length, its kind, the head, how many positive atoms there are, and the atoms.
// The block is lent: one that is handed back is copied, all 518 bytes of it.
fn gather_rule<S: RuleSource>(source: &S, rule: u16, block: &mut Block)
    requires empty { block.old.items ≡ [] }
    ensures after { block.new.items ≡ rule_bytes (rule_or_empty (S.meaning source.now) rule) }
{
    let positive = count_atoms(source, rule, Part::Positive);
    let negative = count_atoms(source, rule, Part::Negative);
    let size = 4 + 2 * (positive + negative);
    let kind = RecordKind::Rule.number();
    let head = source.head(rule).unwrap_or(0);
    push_numbers(block, &[size as u16, kind, head, positive as u16]);
    push_atoms(source, rule, Part::Positive, block);
    push_atoms(source, rule, Part::Negative, block);
}

// Writes the end record.
pub(crate) fn write_end(out: &mut [u8])
    requires room { 4 ≤ length out.old }
    ensures after { out.new ≡ laid_over end_bytes out.old }
{
    let block = block_of(&[0, RecordKind::End.number()]);
    copy_to(&block, out);
}
