// The library's calls, for callers from C: on the bytes of files, and on tables that the caller lends.
#![tactic(auto)]

ghost use Rattle.std.specs.Prelude.{◌≡◌, ◌<◌, ◌≤◌, length};
ghost use Rattle.program.specs.Reading.{program_in};
ghost use Rattle.console.specs.Answer.{answer_for};
ghost use Rattle.console.specs.Line.{line_of};
ghost use Rattle.boundary.specs.Copies.{copied};
ghost use Rattle.boundary.specs.Files.{judged_file, refuted_file, settled_file};
ghost use Rattle.boundary.specs.Answers.{worded};
ghost use Rattle.boundary.specs.Lists.{Crossed, Listed};
ghost use Rattle.boundary.specs.Outputs.{put, MaybePut};

use crate::answers::{DONE, NO_MEMORY, TOO_LONG, Told, refusal_told, refutation_told, worded};
use crate::copies::write_over;
use crate::entries::Stored;
use crate::lent::{TABLE, judge_kind, settle_kind};
use crate::list::{AskCode, CallCode, List, run_kind};
use console::line::line_for;
use program_file::file::ProgramFile;
use refutation::refute;
use std::alloc::Global;

mod answers;
mod copies;
mod entries;
mod lent;
mod list;

// The console's line for a program file and a certificate file, to the front of the output, and its length; 0 where memory or the output is too small.
// When memory fails is open: no contract of the allocator says it.
#[unsafe(no_mangle)]
pub extern "C" fn boundary_line(
    heap: Global,
    program: &[u8],
    certificate: &[u8],
    out: &mut [u8],
) -> usize
    ensures value { MaybePut (line_of (answer_for program.now certificate.now)) out.old (record { answer = result; out = out.new }) }
{
    match line_for(heap, program, certificate) {
        Ok(line) => put_out(line.as_bytes(), out),
        Err(_) => 0,
    }
}

// Puts the bytes to the front of the output, and tells how many they are; 0 where they do not fit.
fn put_out(bytes: &[u8], out: &mut [u8]) -> usize
    ensures value { result ≡ (put bytes.now out.old).answer }
    ensures after { out.new ≡ (put bytes.now out.old).out }
{
    if bytes.len() > out.len() {
        return 0;
    }
    out[..bytes.len()].copy_from_slice(bytes);
    bytes.len()
}

// Judges the marks by the levels, over the program of a program file.
#[unsafe(no_mangle)]
pub extern "C" fn boundary_judge(
    program: &[u8],
    routes: bool,
    marks: &[u8],
    stored: &[Stored],
) -> Told
    ensures value { result ≡ judged_file program.now routes marks.now stored.now }
{
    if stored.len() > TABLE {
        return worded(TOO_LONG, stored.len());
    }
    match ProgramFile::read(program) {
        Ok(file) => judge_kind(&file, routes, marks, stored),
        Err(refusal) => refusal_told(refusal),
    }
}

// Refutes the marks, over the program of a program file.
#[unsafe(no_mangle)]
pub extern "C" fn boundary_refute(program: &[u8], marks: &[u8]) -> Told
    ensures value { result ≡ refuted_file program.now marks.now }
{
    match ProgramFile::read(program) {
        Ok(file) => refutation_told(refute(&file, marks)),
        Err(refusal) => refusal_told(refusal),
    }
}

// Settles the marks, over the program of a program file.
#[unsafe(no_mangle)]
pub extern "C" fn boundary_settle(
    program: &[u8],
    routes: bool,
    marks: &mut [u8],
    stored: &mut [Stored],
    rounds: &mut [u16],
) -> Told
    ensures value { result ≡ (settled_file program.now routes marks.old stored.old rounds.old).answer }
    ensures marks { marks.new ≡ (settled_file program.now routes marks.old stored.old rounds.old).marks }
    ensures stored { stored.new ≡ (settled_file program.now routes marks.old stored.old rounds.old).stored }
    ensures rounds { rounds.new ≡ (settled_file program.now routes marks.old stored.old rounds.old).rounds }
{
    if stored.len() > TABLE {
        return worded(TOO_LONG, stored.len());
    }
    match ProgramFile::read(program) {
        Ok(file) => settle_kind(&file, routes, marks, stored, rounds),
        Err(refusal) => refusal_told(refusal),
    }
}

// Performs a list of calls over the program of a program file: on the tables as they are, for 0; after making a survey, for 1; after making it from the certificate, for any other number.
#[unsafe(no_mangle)]
#[tactic(auto, using(crate::proofs::Lists::performed_listed, crate::proofs::Lists::failed_listed))]
pub extern "C" fn boundary_list(
    heap: Global,
    program: &[u8],
    routes: bool,
    making: u8,
    certificate: &[u8],
    marks: &mut [u8],
    stored: &mut [Stored],
    codes: &[CallCode],
    rounds: &mut [u16],
    asks: &mut [AskCode],
    answers: &mut [Told],
) -> Told
    ensures value { length stored.old ≤ 4097 → Listed (program_in program.now) routes making certificate.now codes.now (record { marks = marks.old; stored = stored.old; rounds = rounds.old; asks = asks.old; answers = answers.old }) (record { marks = marks.new; stored = stored.new; rounds = rounds.new; asks = asks.new; answers = answers.new }) result }
    ensures too_long { 4097 < length stored.old → (result ≡ worded 11 (length stored.old)) × (◌≡◌ {A = Crossed} (record { marks = marks.new; stored = stored.new; rounds = rounds.new; asks = asks.new; answers = answers.new }) (record { marks = marks.old; stored = stored.old; rounds = rounds.old; asks = asks.old; answers = answers.old })) }
{
    if stored.len() > TABLE {
        return worded(TOO_LONG, stored.len());
    }
    let file = match ProgramFile::read(program) {
        Ok(file) => file,
        Err(refusal) => return refusal_told(refusal),
    };
    let mut list = List {
        codes,
        rounds,
        asks,
        answers,
    };
    match run_kind(
        heap,
        &file,
        routes,
        making,
        certificate,
        marks,
        stored,
        &mut list,
    ) {
        Ok(()) => worded(DONE, codes.len()),
        Err(_) => worded(NO_MEMORY, 0),
    }
}

// Reads a program file, puts the atoms as inputs over it, and writes the program to the front of the output.
#[unsafe(no_mangle)]
pub extern "C" fn boundary_copy(program: &[u8], atoms: &[u16], out: &mut [u8]) -> Told
    ensures value { result ≡ (copied program.now atoms.now out.old).answer }
    ensures after { out.new ≡ (copied program.now atoms.now out.old).out }
{
    match ProgramFile::read(program) {
        Ok(file) => write_over(file, atoms, out),
        Err(refusal) => refusal_told(refusal),
    }
}
