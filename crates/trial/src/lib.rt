// Trials: the mark of one atom turned for a while, and put back when the trial ends.
#![tactic(auto)]

ghost use Rattle.std.specs.Prelude.{◌≡◌};
ghost use Rattle.marks.specs.Calls.{named_checked};
ghost use Rattle.trial.specs.Trial.{turned_marks, put_back};

use marks::calls::check_named;
use marks::turn;
use refusal::Refusal;
use rules::RuleSource;
use tables::{entry, put_entry};

// Can the atom be tried?
pub fn can_try<S: RuleSource>(source: &S, marks: &[u8], atom: u16) -> Result<(), Refusal>
    ensures value { result ≡ named_checked (S.meaning source.now).atoms marks.now atom }
{
    check_named(source.atoms(), marks, atom)
}

// The marks while an atom is tried, and the byte that the atom had before, where it has one.
// Whatever way the work inside ends, the byte is then put back.
#[must_use]
pub struct Trial<'a> {
    marks: &'a mut [u8],
    atom: u16,
    kept: Option<u8>,
}

impl<'a> Trial<'a> {
    // Turns the byte of an atom; where the trial is refused, no byte is turned.
    // The clause `named` ties the caller's marks to those that the end of the trial writes, as no type can.
    #[tactic(auto, using(crate::proofs::Kept::put_back_unchanged, crate::proofs::Kept::put_back_over))]
    pub fn open<S: RuleSource>(source: &S, marks: &'a mut [u8], atom: u16) -> Trial<'a>
        ensures value { result.marks.now ≡ turned_marks (S.meaning source.now).atoms marks.old atom }
        ensures kept { put_back result.marks.now result.atom result.kept ≡ marks.old }
        ensures named { result.marks.ghost_name ≡ marks.entry.ghost_name }
    {
        let kept = entry(marks, atom);
        if can_try(source, marks, atom).is_ok() {
            turn(marks, atom);
        }
        Trial { marks, atom, kept }
    }

    // The marks inside the trial.
    pub fn marks(&self) -> &[u8]
        ensures value { result.now ≡ self.now.marks.now }
    {
        self.marks
    }
}

impl Drop for Trial<'_> {
    // Puts the byte of the atom back.
    fn drop(self)
        ensures after { self.exit.0.now ≡ put_back self.entry.marks.now self.entry.atom self.entry.kept }
    {
        let Trial { marks, atom, kept } = self;
        if let Some(byte) = kept {
            put_entry(marks, atom, byte);
        }
    }
}
