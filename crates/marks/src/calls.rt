// The calls that change the marks of a survey: each refuses or writes one byte.
ghost use Rattle.std.specs.Prelude.{◌≡◌};
ghost use Rattle.marks.specs.Calls.{named_checked, doubt_checked, after_mark, after_unmark, after_doubt};

use crate::{check_bytes, is_marked, put_doubt, put_in, put_out};
use refusal::{Layer, Reason, Refusal, check_atom, check_length};
use rules::RuleSource;

// Marks an atom: it is in, and no longer doubted.
pub fn mark<S: RuleSource>(source: &S, marks: &mut [u8], atom: u16) -> Result<(), Refusal>
    ensures value { result ≡ named_checked (S.meaning source.now).atoms marks.old atom }
    ensures after { marks.new ≡ after_mark (S.meaning source.now).atoms marks.old atom }
{
    check_named(source.atoms(), marks, atom)?;
    put_in(marks, atom);
    Ok(())
}

// Unmarks an atom: it is out.
pub fn unmark<S: RuleSource>(source: &S, marks: &mut [u8], atom: u16) -> Result<(), Refusal>
    ensures value { result ≡ named_checked (S.meaning source.now).atoms marks.old atom }
    ensures after { marks.new ≡ after_unmark (S.meaning source.now).atoms marks.old atom }
{
    check_named(source.atoms(), marks, atom)?;
    put_out(marks, atom);
    Ok(())
}

// Doubts a marked atom.
pub fn doubt<S: RuleSource>(source: &S, marks: &mut [u8], atom: u16) -> Result<(), Refusal>
    ensures value { result ≡ doubt_checked (S.meaning source.now).atoms marks.old atom }
    ensures after { marks.new ≡ after_doubt (S.meaning source.now).atoms marks.old atom }
{
    check_named(source.atoms(), marks, atom)?;
    if !is_marked(marks, atom) {
        return Err(Layer::Survey.refuse(Reason::Unmarked, usize::from(atom)));
    }
    put_doubt(marks, atom);
    Ok(())
}

// Refuses marks that do not fit n atoms, and an atom that is not one of 1 to n.
pub fn check_named(n: u16, marks: &[u8], atom: u16) -> Result<(), Refusal>
    ensures value { result ≡ named_checked n marks.now atom }
{
    check_length(n, marks.len())?;
    check_bytes(marks)?;
    check_atom(n, atom)
}
