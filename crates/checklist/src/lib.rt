// The list of points by which a plan is released or stopped. A plan is a program file and a certificate file.
#![tactic(auto)]

ghost use Rattle.std.specs.Prelude.{◌≡◌, true, IfOk, Some};
ghost use Rattle.console.specs.Accepted.{AcceptsOnlyStableFiles};
ghost use Rattle.console.specs.Answer.{answer_for};
ghost use Rattle.checklist.specs.Outcome.{findings_for, answer_in, decided, outcome_for, word_of, ReleasesOnlyStableFiles};

use console::answer::{answer, level_kind};
use orders::kind::LevelKind;
use program_file::atoms_in;
use refusal::Refusal;
use std::fmt;
use verdict::Verdict;

mod pair;
pub mod top;

// What is found of a plan whose files are lawful.
#[derive(Clone, Copy)]
pub struct Findings {
    pub kind: LevelKind,
    pub verdict: Verdict,
    pub top_is_stopped: bool,
}

// How the list ends for a plan.
#[derive(Clone, Copy)]
pub enum Outcome {
    Released,
    Stopped,
}

// An outcome is printed as its word.
impl fmt::Display for Outcome {
    ghost output = { λ o. Some (word_of o) };

    fn fmt<W: fmt::Write>(&self, f: &mut fmt::Formatter<W>) -> fmt::Result {
        match *self {
            Outcome::Released => write!(f, "released"),
            Outcome::Stopped => write!(f, "stopped"),
        }
    }
}

// Reads the files of a plan, judges it, and tries the top of its levels.
pub fn look(program: &[u8], certificate: &[u8]) -> Result<Findings, Refusal>
    ensures value { result ≡ findings_for program.now certificate.now }
    ensures answer { answer_in result ≡ answer_for program.now certificate.now }
    ensures accepted_is_stable { AcceptsOnlyStableFiles program.now certificate.now (answer_in result) }
    ensures top { IfOk result (λ findings. findings.top_is_stopped ≡ true) }
{
    let verdict = answer(program, certificate)?;
    let kind = level_kind(certificate, atoms_in(program)?)?;
    Ok(Findings {
        kind,
        verdict,
        top_is_stopped: top::is_stopped_in(kind),
    })
}

// Looks at a plan, and releases it exactly where every point of the list is passed.
pub fn decide(program: &[u8], certificate: &[u8]) -> Outcome
    ensures value { result ≡ outcome_for program.now certificate.now }
    ensures released_is_stable { ReleasesOnlyStableFiles program.now certificate.now result }
{
    match look(program, certificate) {
        Ok(findings) => outcome_of(findings),
        Err(_) => Outcome::Stopped,
    }
}

// Is every point passed: the plan is accepted, and the top of its levels is stopped?
fn outcome_of(findings: Findings) -> Outcome
    ensures value { result ≡ decided findings }
{
    match findings.verdict {
        Verdict::Accepted(_) if findings.top_is_stopped => Outcome::Released,
        _ => Outcome::Stopped,
    }
}
