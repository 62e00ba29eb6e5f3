// Lists of calls that cross to C, and what each call is lent.
ghost use Rattle.std.specs.Prelude.{◌≡◌, ◌≤◌, ◌+◌, ◌-◌, ◌++◌, IfOk, OnErr, length, map, take, drop, min};
ghost use Rattle.std.specs.List.{flat_map};
ghost use Rattle.session.specs.Run.{after_all, held, performed};
ghost use Rattle.boundary.specs.Answers.{maybe_told};
ghost use Rattle.boundary.specs.Entries.{stored_for};
ghost use Rattle.boundary.specs.Lendings.{ask_for, ask_told, front_of, held_in, lendings_of, over, question_for};
ghost use Rattle.boundary.specs.Lists.{call_for, crossed, crossing, made_for, AfterCalls, AfterKind};

use crate::answers::{Told, maybe_told};
use crate::entries::{Crossing, Stored, take_entries, tell_entries};
use crate::lent::TABLE;
use levels::table::{Entry, LevelTable};
use orders::numbers::Number;
use orders::routes::Route;
use rules::RuleSource;
use session::{Answer, Ask, Call, Loan, Question, perform, run, run_from};
use std::alloc::{AllocError, Global};

// A call of a list: which it is, its atom and its level, and how long the round table and the questions are that it is lent.
#[repr(C)]
#[derive(Clone, Copy)]
pub struct CallCode {
    pub word: u16,
    pub atom: u16,
    pub level: u64,
    pub rounds: usize,
    pub inside: usize,
}

// A question for a trial, and its answer.
#[repr(C)]
#[derive(Clone, Copy)]
pub struct AskCode {
    pub refute: bool,
    pub told: Told,
}

const MARK: u16 = 1;

const UNMARK: u16 = 2;

const DOUBT: u16 = 3;

const LEVEL: u16 = 4;

const JUDGE: u16 = 5;

const REFUTE: u16 = 6;

const TRIAL: u16 = 8;

// A list of calls that crosses, and what its calls are lent.
#[derive(Drop)]
pub(crate) struct List<'a> {
    pub(crate) codes: &'a [CallCode],
    pub(crate) rounds: &'a mut [u16],
    pub(crate) asks: &'a mut [AskCode],
    pub(crate) answers: &'a mut [Told],
}

// What a call is lent, in tables of its own.
#[derive(Drop)]
struct Lending {
    rounds: Vec<u16>,
    inside: Vec<Ask>,
}

// The call; a word without a meaning is settle, whose word is 7.
fn call_for<L: Crossing>(code: CallCode) -> Call<L>
    ensures value { result ≡ call_for L.of_number code }
{
    match code.word {
        MARK => Call::Mark(code.atom),
        UNMARK => Call::Unmark(code.atom),
        DOUBT => Call::Doubt(code.atom),
        LEVEL => Call::Level(code.atom, L::from_number(code.level)),
        JUDGE => Call::Ask(Question::Judge),
        REFUTE => Call::Ask(Question::Refute),
        TRIAL => Call::Trial(code.atom),
        _ => Call::Settle,
    }
}

// The question.
fn question_for(refute: bool) -> Question
    ensures value { result ≡ question_for refute }
{
    if refute {
        Question::Refute
    } else {
        Question::Judge
    }
}

// The calls of a list.
fn calls_for<L: Crossing>(heap: Global, codes: &[CallCode]) -> Result<Vec<Call<L>>, AllocError>
    ensures value { IfOk result (λ calls. calls.items ≡ map (call_for L.of_number) codes.now) }
{
    codes.iter().map(|code| call_for::<L>(*code)).collect(heap)
}

// A question, not answered yet.
fn ask_for(code: AskCode) -> Ask
    ensures value { result ≡ ask_for code }
{
    Ask {
        question: question_for(code.refute),
        answer: None,
    }
}

// A question with its answer, as it crosses back.
fn ask_told(ask: Ask) -> AskCode
    ensures value { result ≡ ask_told ask }
{
    AskCode {
        refute: matches!(ask.question, Question::Refute),
        told: maybe_told(ask.answer),
    }
}

// The questions of a call.
fn asks_for(heap: Global, codes: &[AskCode]) -> Result<Vec<Ask>, AllocError>
    ensures value { IfOk result (λ asks. asks.items ≡ map ask_for codes.now) }
{
    codes.iter().map(|code| ask_for(*code)).collect(heap)
}

// So many values from the front; none where there are fewer.
fn front<T>(values: &[T], many: usize) -> &[T]
    ensures value { result.now ≡ front_of values.now many }
{
    values.get(..many).unwrap_or_default()
}

// The values behind so many; none where there are fewer.
fn behind<T>(values: &[T], many: usize) -> &[T]
    ensures value { result.now ≡ drop many values.now }
{
    values.get(many..).unwrap_or_default()
}

// What each call of a list is lent: the round tables, and the questions, stand one after the other.
fn lendings_for(heap: Global, list: &List<'_>) -> Result<Vec<Lending>, AllocError>
    ensures value { IfOk result (λ lendings. map held_in lendings.items ≡ lendings_of list.now.codes.now list.now.rounds.now list.now.asks.now) }
{
    let mut lendings = Vec::new(heap);
    let mut rounds: &[u16] = list.rounds;
    let mut asks: &[AskCode] = list.asks;
    'codes: for code in list.codes {
        lendings.push(Lending {
            rounds: Vec::from_slice(heap, front(rounds, code.rounds))?,
            inside: asks_for(heap, front(asks, code.inside))?,
        })?;
        rounds = behind(rounds, code.rounds);
        asks = behind(asks, code.inside);
    }
    Ok(lendings)
}

// The loans of lendings.
fn loans_for<'a>(heap: Global, lendings: &'a mut [Lending]) -> Result<Vec<Loan<'a>>, AllocError>
    ensures value { IfOk result (λ loans. map held loans.items ≡ map held_in lendings.old) }
{
    lendings
        .iter_mut()
        .map(|lending| Loan {
            rounds: &mut lending.rounds,
            inside: &mut lending.inside,
            answer: None,
        })
        .collect(heap)
}

// Tells the answer to each call, and hands back the round tables and the answers inside.
fn tell_loans(loans: &[Loan], list: &mut List<'_>)
    ensures codes { list.new.codes ≡ list.old.codes }
    ensures rounds_named { list.new.rounds.ghost_name ≡ list.old.rounds.ghost_name }
    ensures asks_named { list.new.asks.ghost_name ≡ list.old.asks.ghost_name }
    ensures answers_named { list.new.answers.ghost_name ≡ list.old.answers.ghost_name }
    ensures rounds { list.new.rounds.now ≡ over (flat_map (λ k. k.rounds.now) loans.now) list.old.rounds.now }
    ensures asks { list.new.asks.now ≡ over (flat_map (λ k. map ask_told k.inside.now) loans.now) list.old.asks.now }
    ensures answers { list.new.answers.now ≡ over (map (λ k. maybe_told k.answer) loans.now) list.old.answers.now }
{
    tell_answers(loans, list.answers);
    tell_rounds(loans, list.rounds);
    tell_asks(loans, list.asks);
}

// Tells the answers at their places, where there are such.
fn tell_answers(loans: &[Loan], answers: &mut [Told])
    ensures after { answers.new ≡ over (map (λ k. maybe_told k.answer) loans.now) answers.old }
{
    let many = loans.len().min(answers.len());
    'answers: for at in 0..many {
        answers[at] = maybe_told(loans[at].answer);
    }
}

// Hands back the round tables, one after the other.
fn tell_rounds(loans: &[Loan], rounds: &mut [u16])
    ensures after { rounds.new ≡ over (flat_map (λ k. k.rounds.now) loans.now) rounds.old }
{
    let mut from = 0;
    'loans: for loan in loans {
        from = put_rounds(loan.rounds, rounds, from);
    }
}

// Hands back a round table from a place on, and tells the place behind it.
fn put_rounds(lent: &[u16], rounds: &mut [u16], from: usize) -> usize
    requires within { from ≤ length rounds.old }
    ensures value { result ≡ from + min (length lent.now) (length rounds.old - from) }
    ensures after { rounds.new ≡ take from rounds.old ++ over lent.now (drop from rounds.old) }
{
    let many = lent.len().min(rounds.len() - from);
    rounds[from..from + many].copy_from_slice(&lent[..many]);
    from + many
}

// Hands back the questions with their answers, one call's after another's.
fn tell_asks(loans: &[Loan], codes: &mut [AskCode])
    ensures after { codes.new ≡ over (flat_map (λ k. map ask_told k.inside.now) loans.now) codes.old }
{
    let mut from = 0;
    'loans: for loan in loans {
        from = put_asks(loan.inside, codes, from);
    }
}

// Hands back a call's questions from a place on, and tells the place behind them.
fn put_asks(asks: &[Ask], codes: &mut [AskCode], from: usize) -> usize
    requires within { from ≤ length codes.old }
    ensures value { result ≡ from + min (length asks.now) (length codes.old - from) }
    ensures after { codes.new ≡ take from codes.old ++ over (map ask_told asks.now) (drop from codes.old) }
{
    let many = asks.len().min(codes.len() - from);
    tell_each(&asks[..many], &mut codes[from..from + many]);
    from + many
}

// Tells as many questions with their answers as there are places.
fn tell_each(asks: &[Ask], codes: &mut [AskCode])
    requires sized { length asks.now ≡ length codes.old }
    ensures after { codes.new ≡ map ask_told asks.now }
{
    'asks: for at in 0..asks.len() {
        codes[at] = ask_told(asks[at]);
    }
}

// Performs calls: on the tables as they are, for 0; after making a survey, for 1; after making it from the certificate, for any other number.
fn run_made<S: RuleSource, L: Crossing>(
    source: &S,
    making: u8,
    certificate: &[u8],
    marks: &mut [u8],
    levels: &mut LevelTable<L>,
    calls: &[Call<L>],
    loans: &mut [Loan],
)
    ensures marks { marks.new ≡ (after_all L.Level.below L.Level.RUNGS L.Level.rung (S.meaning source.now) (made_for L.StoredLevel.WIDTH L.StoredLevel.decode L.StoredLevel.KIND (S.meaning source.now).atoms making certificate.now (record { marks = marks.old; entries = levels.old.entries.now })) calls.now loans.old).marks }
    ensures entries { levels.new.entries.now ≡ (after_all L.Level.below L.Level.RUNGS L.Level.rung (S.meaning source.now) (made_for L.StoredLevel.WIDTH L.StoredLevel.decode L.StoredLevel.KIND (S.meaning source.now).atoms making certificate.now (record { marks = marks.old; entries = levels.old.entries.now })) calls.now loans.old).entries }
    ensures loans { map held loans.new ≡ performed L.Level.below L.Level.RUNGS L.Level.rung (S.meaning source.now) (made_for L.StoredLevel.WIDTH L.StoredLevel.decode L.StoredLevel.KIND (S.meaning source.now).atoms making certificate.now (record { marks = marks.old; entries = levels.old.entries.now })) calls.now loans.old }
    ensures named { levels.new.entries.ghost_name ≡ levels.old.entries.ghost_name }
{
    match making {
        0 => perform(source, marks, levels, calls, loans),
        1 => run(source, marks, levels, calls, loans),
        _ => run_from(source, marks, levels, certificate, calls, loans),
    }
}

// The same on entries that cross.
fn run_lent<S: RuleSource, L: Crossing>(
    source: &S,
    making: u8,
    certificate: &[u8],
    marks: &mut [u8],
    stored: &mut [Stored],
    entries: &mut [Entry<L>],
    calls: &[Call<L>],
    loans: &mut [Loan],
)
    requires sized { length entries.old ≡ length stored.old }
    ensures marks { marks.new ≡ (after_all L.Level.below L.Level.RUNGS L.Level.rung (S.meaning source.now) (made_for L.StoredLevel.WIDTH L.StoredLevel.decode L.StoredLevel.KIND (S.meaning source.now).atoms making certificate.now (crossing L.of_number marks.old stored.old)) calls.now loans.old).marks }
    ensures stored { stored.new ≡ map (stored_for L.number_of) (after_all L.Level.below L.Level.RUNGS L.Level.rung (S.meaning source.now) (made_for L.StoredLevel.WIDTH L.StoredLevel.decode L.StoredLevel.KIND (S.meaning source.now).atoms making certificate.now (crossing L.of_number marks.old stored.old)) calls.now loans.old).entries }
    ensures loans { map held loans.new ≡ performed L.Level.below L.Level.RUNGS L.Level.rung (S.meaning source.now) (made_for L.StoredLevel.WIDTH L.StoredLevel.decode L.StoredLevel.KIND (S.meaning source.now).atoms making certificate.now (crossing L.of_number marks.old stored.old)) calls.now loans.old }
{
    take_entries(entries, stored);
    let mut levels = LevelTable::over(entries);
    run_made(
        source,
        making,
        certificate,
        marks,
        &mut levels,
        calls,
        loans,
    );
    tell_entries(entries, stored);
}

// The same with a list that crosses.
fn run_in<S: RuleSource, L: Crossing>(
    heap: Global,
    source: &S,
    making: u8,
    certificate: &[u8],
    marks: &mut [u8],
    stored: &mut [Stored],
    entries: &mut [Entry<L>],
    list: &mut List<'_>,
) -> Result<(), AllocError>
    requires sized { length entries.old ≡ length stored.old }
    ensures after { IfOk result (λ u. AfterCalls L.Level.below L.Level.RUNGS L.Level.rung L.of_number L.number_of (S.meaning source.now) (made_for L.StoredLevel.WIDTH L.StoredLevel.decode L.StoredLevel.KIND (S.meaning source.now).atoms making certificate.now (crossing L.of_number marks.old stored.old)) list.old.codes.now (crossed marks.old stored.old list.old) (crossed marks.new stored.new list.new)) }
    ensures same { OnErr result (crossed marks.new stored.new list.new ≡ crossed marks.old stored.old list.old) }
    ensures rounds_named { list.new.rounds.ghost_name ≡ list.old.rounds.ghost_name }
    ensures asks_named { list.new.asks.ghost_name ≡ list.old.asks.ghost_name }
    ensures answers_named { list.new.answers.ghost_name ≡ list.old.answers.ghost_name }
{
    let calls = calls_for::<L>(heap, list.codes)?;
    let mut lendings = lendings_for(heap, list)?;
    let mut loans = loans_for(heap, &mut lendings)?;
    run_lent(
        source,
        making,
        certificate,
        marks,
        stored,
        entries,
        &calls,
        &mut loans,
    );
    tell_loans(&loans, list);
    Ok(())
}

// The same by routes or by numbers, in a table for as many entries as cross.
pub(crate) fn run_kind<S: RuleSource>(
    heap: Global,
    source: &S,
    routes: bool,
    making: u8,
    certificate: &[u8],
    marks: &mut [u8],
    stored: &mut [Stored],
    list: &mut List<'_>,
) -> Result<(), AllocError>
    requires few { length stored.old ≤ 4097 }
    ensures after { IfOk result (λ u. AfterKind routes (S.meaning source.now) making certificate.now list.old.codes.now (crossed marks.old stored.old list.old) (crossed marks.new stored.new list.new)) }
    ensures same { OnErr result (crossed marks.new stored.new list.new ≡ crossed marks.old stored.old list.old) }
    ensures rounds_named { list.new.rounds.ghost_name ≡ list.old.rounds.ghost_name }
    ensures asks_named { list.new.asks.ghost_name ≡ list.old.asks.ghost_name }
    ensures answers_named { list.new.answers.ghost_name ≡ list.old.answers.ghost_name }
{
    let many = stored.len();
    if routes {
        let mut entries: [Entry<Route>; TABLE] = [None; TABLE];
        run_in::<S, Route>(
            heap,
            source,
            making,
            certificate,
            marks,
            stored,
            &mut entries[..many],
            list,
        )
    } else {
        let mut entries: [Entry<Number>; TABLE] = [None; TABLE];
        run_in::<S, Number>(
            heap,
            source,
            making,
            certificate,
            marks,
            stored,
            &mut entries[..many],
            list,
        )
    }
}
