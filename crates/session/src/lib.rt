// A list of calls on the tables of a survey, from making on: what each answers, and what holds of every such list.
#![tactic(auto)]

ghost use Rattle.std.specs.Prelude.{◌≡◌, [], length, map, Some};
ghost use Rattle.marks.specs.Calls.{named_checked};
ghost use Rattle.survey.specs.Making.{claims_for, claims_or_none};
ghost use Rattle.session.specs.Law.{HoldsAfterAll};
ghost use Rattle.session.specs.Made.{claimed, made_tables, no_atoms};
ghost use Rattle.session.specs.Run.{told, tried, after_call, asked, after_all, after_loan, performed, held, names};

use levels::order::{Level, StoredLevel};
use levels::table::LevelTable;
use marks::calls::{doubt, mark, unmark};
use refusal::Refusal;
use refutation::{Refutation, refute};
use rules::RuleSource;
use settlement::{Settlement, settle};
use survey::levelling::level;
use survey::making::{make, make_from};
use trial::{Trial, can_try};
use verdict::{Verdict, judge};

pub mod inside;

// A call on the tables of a survey.
#[derive(Clone, Copy)]
pub enum Call<L> {
    Mark(u16),
    Unmark(u16),
    Doubt(u16),
    Level(u16, L),
    Ask(Question),
    Settle,
    Trial(u16),
}

// What is asked of the tables, and changes nothing. It may be asked while a trial is open.
#[derive(Clone, Copy)]
pub enum Question {
    Judge,
    Refute,
}

// What a call answers: asking for a trial answers as mark does.
#[derive(Clone, Copy)]
pub enum Answer {
    Done(Result<(), Refusal>),
    Judged(Result<Verdict, Refusal>),
    Refuted(Result<Refutation, Refusal>),
    Settled(Result<Settlement, Refusal>),
}

// A question for an open trial, and the place for its answer.
#[derive(Clone, Copy)]
pub struct Ask {
    pub question: Question,
    pub answer: Option<Answer>,
}

// What a call is lent, and the place for its answer: settle writes into the round table, a trial answers the questions.
#[derive(Drop)]
pub struct Loan<'a> {
    pub rounds: &'a mut [u16],
    pub inside: &'a mut [Ask],
    pub answer: Option<Answer>,
}

// Makes a survey with nothing marked, and performs a list of calls on it.
pub fn run<S: RuleSource, L: Level>(
    source: &S,
    marks: &mut [u8],
    levels: &mut LevelTable<L>,
    calls: &[Call<L>],
    loans: &mut [Loan],
)
    ensures marks { marks.new ≡ (after_all L.below L.RUNGS L.rung (S.meaning source.now) (made_tables (length marks.old) (length levels.old.entries.now) []) calls.now loans.old).marks }
    ensures entries { levels.new.entries.now ≡ (after_all L.below L.RUNGS L.rung (S.meaning source.now) (made_tables (length marks.old) (length levels.old.entries.now) []) calls.now loans.old).entries }
    ensures loans { map held loans.new ≡ performed L.below L.RUNGS L.rung (S.meaning source.now) (made_tables (length marks.old) (length levels.old.entries.now) []) calls.now loans.old }
    ensures named { levels.new.entries.ghost_name ≡ levels.old.entries.ghost_name }
    ensures loans_named { map names loans.new ≡ map names loans.old }
    ensures holds_after_all { HoldsAfterAll L.below L.RUNGS L.rung (S.meaning source.now) no_atoms (made_tables (length marks.old) (length levels.old.entries.now) []) }
{
    make(marks, levels);
    perform(source, marks, levels, calls, loans);
}

// Makes a survey from a certificate, and performs a list of calls on it. Where the making is refused, nothing is marked.
pub fn run_from<S: RuleSource, L: StoredLevel>(
    source: &S,
    marks: &mut [u8],
    levels: &mut LevelTable<L>,
    certificate: &[u8],
    calls: &[Call<L>],
    loans: &mut [Loan],
)
    ensures marks { marks.new ≡ (after_all L.Level.below L.Level.RUNGS L.Level.rung (S.meaning source.now) (made_tables (length marks.old) (length levels.old.entries.now) (claims_or_none (claims_for L.WIDTH L.decode (S.meaning source.now).atoms L.KIND (length marks.old) (length levels.old.entries.now) certificate.now))) calls.now loans.old).marks }
    ensures entries { levels.new.entries.now ≡ (after_all L.Level.below L.Level.RUNGS L.Level.rung (S.meaning source.now) (made_tables (length marks.old) (length levels.old.entries.now) (claims_or_none (claims_for L.WIDTH L.decode (S.meaning source.now).atoms L.KIND (length marks.old) (length levels.old.entries.now) certificate.now))) calls.now loans.old).entries }
    ensures loans { map held loans.new ≡ performed L.Level.below L.Level.RUNGS L.Level.rung (S.meaning source.now) (made_tables (length marks.old) (length levels.old.entries.now) (claims_or_none (claims_for L.WIDTH L.decode (S.meaning source.now).atoms L.KIND (length marks.old) (length levels.old.entries.now) certificate.now))) calls.now loans.old }
    ensures named { levels.new.entries.ghost_name ≡ levels.old.entries.ghost_name }
    ensures loans_named { map names loans.new ≡ map names loans.old }
    ensures holds_after_all { HoldsAfterAll L.Level.below L.Level.RUNGS L.Level.rung (S.meaning source.now) (claimed (claims_or_none (claims_for L.WIDTH L.decode (S.meaning source.now).atoms L.KIND (length marks.old) (length levels.old.entries.now) certificate.now))) (made_tables (length marks.old) (length levels.old.entries.now) (claims_or_none (claims_for L.WIDTH L.decode (S.meaning source.now).atoms L.KIND (length marks.old) (length levels.old.entries.now) certificate.now))) }
{
    make_from(source, marks, levels, certificate);
    perform(source, marks, levels, calls, loans);
}

// Performs a list of calls, each on what the last one left, and each with the loan at its place; a call without a loan is not performed.
pub fn perform<S: RuleSource, L: Level>(
    source: &S,
    marks: &mut [u8],
    levels: &mut LevelTable<L>,
    calls: &[Call<L>],
    loans: &mut [Loan],
)
    ensures marks { marks.new ≡ (after_all L.below L.RUNGS L.rung (S.meaning source.now) (record { marks = marks.old; entries = levels.old.entries.now }) calls.now loans.old).marks }
    ensures entries { levels.new.entries.now ≡ (after_all L.below L.RUNGS L.rung (S.meaning source.now) (record { marks = marks.old; entries = levels.old.entries.now }) calls.now loans.old).entries }
    ensures loans { map held loans.new ≡ performed L.below L.RUNGS L.rung (S.meaning source.now) (record { marks = marks.old; entries = levels.old.entries.now }) calls.now loans.old }
    ensures named { levels.new.entries.ghost_name ≡ levels.old.entries.ghost_name }
    ensures loans_named { map names loans.new ≡ map names loans.old }
{
    'calls: for (at, loan) in loans.iter_mut().enumerate() {
        let Some(call) = calls.get(at) else {
            break 'calls;
        };
        perform_one(source, marks, levels, *call, loan);
    }
}

// Performs one call, and puts its answer at its place.
fn perform_one<S: RuleSource, L: Level>(
    source: &S,
    marks: &mut [u8],
    levels: &mut LevelTable<L>,
    call: Call<L>,
    loan: &mut Loan,
)
    ensures marks { marks.new ≡ (after_call L.below L.RUNGS L.rung (S.meaning source.now) (record { marks = marks.old; entries = levels.old.entries.now }) loan.old.rounds.now call).marks }
    ensures entries { levels.new.entries.now ≡ (after_call L.below L.RUNGS L.rung (S.meaning source.now) (record { marks = marks.old; entries = levels.old.entries.now }) loan.old.rounds.now call).entries }
    ensures loan { held loan.new ≡ after_loan L.below L.RUNGS L.rung (S.meaning source.now) (record { marks = marks.old; entries = levels.old.entries.now }) call loan.old }
    ensures named { levels.new.entries.ghost_name ≡ levels.old.entries.ghost_name }
    ensures loan_named { names loan.new ≡ names loan.old }
{
    loan.answer = Some(match call {
        Call::Mark(atom) => Answer::Done(mark(source, marks, atom)),
        Call::Unmark(atom) => Answer::Done(unmark(source, marks, atom)),
        Call::Doubt(atom) => Answer::Done(doubt(source, marks, atom)),
        Call::Level(atom, height) => Answer::Done(level(source, levels, atom, height)),
        Call::Ask(question) => tell(source, marks, levels, question),
        Call::Settle => Answer::Settled(settle(source, marks, levels, loan.rounds)),
        Call::Trial(atom) => Answer::Done(ask_inside(source, marks, levels, atom, loan.inside)),
    });
}

// Answers a question.
fn tell<S: RuleSource, L: Level>(
    source: &S,
    marks: &[u8],
    levels: &LevelTable<L>,
    question: Question,
) -> Answer
    ensures value { result ≡ told L.below L.RUNGS L.rung (S.meaning source.now) (record { marks = marks.now; entries = levels.now.entries.now }) question }
{
    match question {
        Question::Judge => Answer::Judged(judge(source, marks, levels)),
        Question::Refute => Answer::Refuted(refute(source, marks)),
    }
}

// Opens a trial of the atom, answers the questions inside it, and ends it. Answers what asking for the trial does.
fn ask_inside<S: RuleSource, L: Level>(
    source: &S,
    marks: &mut [u8],
    levels: &LevelTable<L>,
    atom: u16,
    asks: &mut [Ask],
) -> Result<(), Refusal>
    ensures value { result ≡ named_checked (S.meaning source.now).atoms marks.old atom }
    ensures inside { asks.new ≡ map (asked L.below L.RUNGS L.rung (S.meaning source.now) (tried L.below L.RUNGS L.rung (S.meaning source.now) (record { marks = marks.old; entries = levels.now.entries.now }) atom)) asks.old }
    ensures restored { marks.new ≡ marks.old }
{
    let answer = can_try(source, marks, atom);
    let trial = Trial::open(source, marks, atom);
    'asks: for ask in asks.iter_mut() {
        ask.answer = Some(tell(source, trial.marks(), levels, ask.question));
    }
    answer
}
