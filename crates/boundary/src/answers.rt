// How answers cross to C: each as a word, and the numbers that go with it.
ghost use Rattle.std.specs.Prelude.{◌≡◌};
ghost use Rattle.boundary.specs.Answers.{layer_number, refusal_told, done_told, verdict_told, refutation_told, settlement_told, answer_told, maybe_told};

use refusal::{Layer, Refusal};
use refutation::Refutation;
use session::Answer;
use settlement::Settlement;
use verdict::Verdict;

// An answer in numbers: docs/DIFFERENTIAL.md lists the words.
#[repr(C)]
#[derive(Clone, Copy)]
pub struct Told {
    // which answer
    pub word: u16,
    // the number of the reason of a refusal, else 0
    pub reason: u16,
    // the number of the layer of a refusal, else 0
    pub layer: u16,
    // the number of the answer, or the place of a refusal
    pub number: usize,
    // the rule of an escape, else 0
    pub rule: usize,
}

const REFUSED: u16 = 0;

pub(crate) const DONE: u16 = 1;

const BROKEN: u16 = 2;

const UNLEVELLED: u16 = 3;

const UNGROUNDED: u16 = 4;

const ACCEPTED: u16 = 5;

const UNDOUBTED: u16 = 6;

const ESCAPED: u16 = 7;

const RANKED: u16 = 8;

const LOOPED: u16 = 9;

const NONE: u16 = 10;

pub(crate) const TOO_LONG: u16 = 11;

pub(crate) const NO_MEMORY: u16 = 12;

// An answer that is a word and a number.
pub(crate) fn worded(word: u16, number: usize) -> Told
    ensures value { result ≡ Rattle.boundary.specs.Answers.worded word number }
{
    Told {
        word,
        reason: 0,
        layer: 0,
        number,
        rule: 0,
    }
}

// The number of a layer, in the order in which the layers are listed.
fn layer_number(layer: Layer) -> u16
    ensures value { result ≡ layer_number layer }
{
    match layer {
        Layer::Program => 1,
        Layer::Certificate => 2,
        Layer::Source => 3,
        Layer::Survey => 4,
        Layer::Writer => 5,
    }
}

// A refusal.
pub(crate) fn refusal_told(refusal: Refusal) -> Told
    ensures value { result ≡ refusal_told refusal }
{
    Told {
        word: REFUSED,
        reason: u16::from(refusal.reason.number()),
        layer: layer_number(refusal.layer),
        number: refusal.place,
        rule: 0,
    }
}

// That a call was done, or why not.
pub(crate) fn done_told(answer: Result<(), Refusal>) -> Told
    ensures value { result ≡ done_told answer }
{
    match answer {
        Ok(()) => worded(DONE, 0),
        Err(refusal) => refusal_told(refusal),
    }
}

// What judge answers.
pub(crate) fn verdict_told(answer: Result<Verdict, Refusal>) -> Told
    ensures value { result ≡ verdict_told answer }
{
    match answer {
        Ok(Verdict::Broken(rule)) => worded(BROKEN, usize::from(rule)),
        Ok(Verdict::Unlevelled(atom)) => worded(UNLEVELLED, usize::from(atom)),
        Ok(Verdict::Ungrounded(atom)) => worded(UNGROUNDED, usize::from(atom)),
        Ok(Verdict::Accepted(count)) => worded(ACCEPTED, count),
        Err(refusal) => refusal_told(refusal),
    }
}

// What refute answers.
pub(crate) fn refutation_told(answer: Result<Refutation, Refusal>) -> Told
    ensures value { result ≡ refutation_told answer }
{
    match answer {
        Ok(Refutation::Undoubted) => worded(UNDOUBTED, 0),
        Ok(Refutation::Escaped(escape)) => Told {
            rule: usize::from(escape.rule),
            ..worded(ESCAPED, usize::from(escape.atom))
        },
        Ok(Refutation::Accepted(count)) => worded(ACCEPTED, count),
        Err(refusal) => refusal_told(refusal),
    }
}

// What settle answers.
pub(crate) fn settlement_told(answer: Result<Settlement, Refusal>) -> Told
    ensures value { result ≡ settlement_told answer }
{
    match answer {
        Ok(Settlement::Broken(rule)) => worded(BROKEN, usize::from(rule)),
        Ok(Settlement::Ranked(rounds)) => worded(RANKED, usize::from(rounds)),
        Ok(Settlement::Looped(count)) => worded(LOOPED, count),
        Err(refusal) => refusal_told(refusal),
    }
}

// What a call of a list answers.
pub(crate) fn answer_told(answer: Answer) -> Told
    ensures value { result ≡ answer_told answer }
{
    match answer {
        Answer::Done(answer) => done_told(answer),
        Answer::Judged(answer) => verdict_told(answer),
        Answer::Refuted(answer) => refutation_told(answer),
        Answer::Settled(answer) => settlement_told(answer),
    }
}

// The same where a call may not have been performed.
pub(crate) fn maybe_told(answer: Option<Answer>) -> Told
    ensures value { result ≡ maybe_told answer }
{
    match answer {
        Some(answer) => answer_told(answer),
        None => worded(NONE, 0),
    }
}
