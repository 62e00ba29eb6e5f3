// How answers are written.
use orders::numbers::Number;
use refusal::Refusal;
use session::{Answer, Call, Loan, Question};
use std::alloc::{AllocError, Global};
use std::fmt;

// What was answered, or the refusal.
pub fn answer_text<T: fmt::Display + Drop>(
    heap: Global,
    answer: Result<T, Refusal>,
) -> Result<String, AllocError> {
    match answer {
        Ok(value) => format!(in heap; "{value}"),
        Err(refusal) => format!(in heap; "{refusal}"),
    }
}

// Whether a call was done, or the refusal.
pub fn done_text(heap: Global, answer: Result<(), Refusal>) -> Result<String, AllocError> {
    answer_text(heap, answer.map(|()| "accepted"))
}

// A call and its answer, the questions inside a trial with theirs, and the round table.
pub fn loan_text(heap: Global, call: Call<Number>, loan: &Loan<'_>) -> Result<String, AllocError> {
    let name = call_text(heap, call)?;
    let told = told_text(heap, loan.answer)?;
    let mut text = format!(in heap; "{name}: {told}")?;
    for ask in loan.inside.iter() {
        let word = question_word(ask.question);
        let told = told_text(heap, ask.answer)?;
        text.push_str(&format!(in heap; ", inside {word}: {told}")?)?;
    }
    let rounds = &*loan.rounds;
    if !rounds.is_empty() {
        text.push_str(&format!(in heap; ", rounds {rounds:?}")?)?;
    }
    Ok(text)
}

// The answer to a call, where there is one.
pub fn told_text(heap: Global, answer: Option<Answer>) -> Result<String, AllocError> {
    match answer {
        Some(Answer::Done(answer)) => done_text(heap, answer),
        Some(Answer::Judged(answer)) => answer_text(heap, answer),
        Some(Answer::Refuted(answer)) => answer_text(heap, answer),
        Some(Answer::Settled(answer)) => answer_text(heap, answer),
        None => format!(in heap; "none"),
    }
}

fn call_text(heap: Global, call: Call<Number>) -> Result<String, AllocError> {
    match call {
        Call::Mark(atom) => format!(in heap; "mark {atom}"),
        Call::Unmark(atom) => format!(in heap; "unmark {atom}"),
        Call::Doubt(atom) => format!(in heap; "doubt {atom}"),
        Call::Level(atom, Number { value }) => format!(in heap; "level {atom} at {value}"),
        Call::Ask(question) => format!(in heap; "{}", question_word(question)),
        Call::Settle => format!(in heap; "settle"),
        Call::Trial(atom) => format!(in heap; "trial of {atom}"),
    }
}

fn question_word(question: Question) -> &'static str {
    match question {
        Question::Judge => "judge",
        Question::Refute => "refute",
    }
}
