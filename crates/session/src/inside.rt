// What judge and refute answer while an atom is tried.
ghost use Rattle.std.specs.Prelude.{◌≡◌};
ghost use Rattle.session.specs.Inside.{told_inside};

use levels::order::Level;
use levels::table::LevelTable;
use refusal::Refusal;
use refutation::{Refutation, refute};
use rules::RuleSource;
use trial::{Trial, can_try};
use verdict::{Verdict, judge};

// Both answers, given while the same trial was open.
#[derive(Clone, Copy)]
pub struct Tried {
    pub verdict: Verdict,
    pub refutation: Refutation,
}

// Opens a trial of the atom, and asks judge and refute inside it. The first refusal ends it: of the trial, of judge, of refute.
// Whichever way it ends, the marks are then as they were.
pub fn try_out<S: RuleSource, L: Level>(
    source: &S,
    marks: &mut [u8],
    levels: &LevelTable<L>,
    atom: u16,
) -> Result<Tried, Refusal>
    ensures value { result ≡ told_inside L.below L.RUNGS L.rung (S.meaning source.now) (record { marks = marks.old; entries = levels.now.entries.now }) atom }
    ensures restored { marks.new ≡ marks.old }
{
    can_try(source, marks, atom)?;
    let trial = Trial::open(source, marks, atom);
    let verdict = judge(source, trial.marks(), levels)?;
    let refutation = refute(source, trial.marks())?;
    Ok(Tried {
        verdict,
        refutation,
    })
}
