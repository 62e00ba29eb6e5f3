// The line that is printed for an answer.
ghost use Rattle.std.specs.Prelude.{◌≡◌, IfOk, string_bytes};
ghost use Rattle.console.specs.Accepted.{PrintsOnlyStable};
ghost use Rattle.console.specs.Answer.{answer_for};
ghost use Rattle.console.specs.Line.{line_of};

use crate::answer::answer;
use refusal::Refusal;
use std::alloc::{AllocError, Global};
use verdict::Verdict;

// The line for a program file and a certificate file; only memory can fail.
pub fn line_for(heap: Global, program: &[u8], certificate: &[u8]) -> Result<String, AllocError>
    ensures value { IfOk result (λ text. string_bytes text ≡ line_of (answer_for program.now certificate.now)) }
    ensures accepted_is_stable { IfOk result (λ text. PrintsOnlyStable program.now certificate.now (string_bytes text)) }
{
    write_line(heap, answer(program, certificate))
}

// The line for an answer; only memory can fail.
pub fn write_line(heap: Global, answer: Result<Verdict, Refusal>) -> Result<String, AllocError>
    ensures value { IfOk result (λ text. string_bytes text ≡ line_of answer) }
{
    match answer {
        Ok(verdict) => format!(in heap; "{verdict}\n"),
        Err(refusal) => format!(in heap; "{refusal}\n"),
    }
}
