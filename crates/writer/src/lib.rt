// The writer: any rule source out as a program file.
#![tactic(auto)]

ghost use Rattle.std.specs.Prelude.{◌≡◌, ◌≤◌, length, IfOk};
ghost use Rattle.program.specs.Encoding.{encoding};
ghost use Rattle.writer.specs.RoundTrip.{ReadsBack, SameBytes};
ghost use Rattle.writer.specs.Writing.{size_checked, write_answer, laid_over, before_end, output_after};

use crate::record::{rule_size, write_end, write_head, write_rule};
use program::reader::MAX_RULES;
use records::MAX_BYTES;
use refusal::{Layer, Reason, Refusal};
use rules::RuleSource;

mod block;
mod part;
mod record;

// Writes the program file of a source to the front of the output, and tells its length. Refused, it writes nothing.
pub fn write<S: RuleSource>(source: &S, out: &mut [u8]) -> Result<usize, Refusal>
    ensures value { result ≡ write_answer (S.meaning source.now) (length out.old) }
    ensures after { out.new ≡ output_after (S.meaning source.now) out.old }
    ensures fits { IfOk result (λ size. size ≤ length out.old) }
    ensures reads_back { ReadsBack (S.meaning source.now) result out.new }
    ensures same_bytes { SameBytes (S.meaning source.now) result out.new }
{
    let size = check_size(source)?;
    if size > out.len() {
        return Err(Layer::Writer.refuse(Reason::Output, size));
    }
    write_file(source, out);
    Ok(size)
}

// Refuses a source over the limits of a file: that of rules, then that of bytes.
fn check_size<S: RuleSource>(source: &S) -> Result<usize, Refusal>
    ensures value { result ≡ size_checked (S.meaning source.now) }
{
    if source.rules() > MAX_RULES {
        return Err(Layer::Writer.refuse(Reason::Limit, usize::from(MAX_RULES)));
    }
    let size = file_size(source);
    if size > MAX_BYTES {
        return Err(Layer::Writer.refuse(Reason::Limit, MAX_BYTES));
    }
    Ok(size)
}

// How many bytes the file has: 12 in its head and its end, and those of the rules.
fn file_size<S: RuleSource>(source: &S) -> usize
    ensures value { result ≡ length (encoding (S.meaning source.now)) }
{
    12 + (1..=source.rules())
        .map(|rule| rule_size(source, rule))
        .sum::<usize>()
}

// Writes the records one after the other.
fn write_file<S: RuleSource>(source: &S, out: &mut [u8])
    requires room { length (encoding (S.meaning source.now)) ≤ length out.old }
    ensures after { out.new ≡ laid_over (encoding (S.meaning source.now)) out.old }
{
    let at = write_rules(source, out);
    write_end(&mut out[at..]);
}

// Writes the head and the rules, each record where the one before it ends, and tells where the last ends.
// The place is carried by hand: of a `fold` whose closure writes to the output it was not proved what the output then holds.
fn write_rules<S: RuleSource>(source: &S, out: &mut [u8]) -> usize
    requires room { length (encoding (S.meaning source.now)) ≤ length out.old }
    ensures value { result ≡ length (before_end (S.meaning source.now)) }
    ensures after { out.new ≡ laid_over (before_end (S.meaning source.now)) out.old }
{
    let mut at = write_head(source, out);
    for rule in 1..=source.rules() {
        at += write_rule(source, rule, &mut out[at..]);
    }
    at
}
