// The lines that are printed, and the shapes of the cases behind them.
// A handle and a name go to most functions: each call has a name of its own, so a struct of both would be no plainer.
use crate::bytes::{Claim, FileBytes, Order, Records};
use console::answer::answer;
use console::line::write_line;
use files::read_front;
use refusal::Refusal;
use std::io;
use verdict::Verdict;

// A name, and a file as it stands.
pub type ByteCase = (&'static str, &'static [u8]);

// A name, and the records of a file.
pub type RecordCase = (&'static str, Records);

// A name, and what a certificate claims.
pub type ClaimCase = (&'static str, &'static [Claim]);

// A lawful program over n atoms, and certificates that are tried with it.
#[derive(Clone, Copy)]
pub struct Tried {
    pub n: u16,
    pub program: Records,
    pub order: Order,
    pub certificates: &'static [ClaimCase],
}

// Which of the two files a case gives; the other one is small and lawful.
// No closure in its place would be plainer: a caller names its side in one word.
#[derive(Clone, Copy)]
pub enum Side {
    Program,
    Certificate,
}

// 1 unless 2.
pub const SMALL_PROGRAM: &[u8] =
    b"\x04\x00\x01\x00\x02\x00\x01\x00\x06\x00\x02\x00\x01\x00\x00\x00\x02\x00\x00\x00\x03\x00";

// 1 at 1.
const SMALL_CERTIFICATE: &[u8] =
    b"\x04\x00\x11\x00\x02\x00\x01\x00\x06\x00\x12\x00\x01\x00\x01\x00\x00\x00\x00\x00\x03\x00";

// The name of a case, and the library's answer.
pub fn print_answer(
    rt: &HostRuntime,
    name: &str,
    answer: Result<Verdict, Refusal>,
) -> io::Result<()> {
    let line = write_line(rt.alloc(), answer)?;
    print!(rt; "{name}: {line}")
}

// The name of a case, and what was done or why not.
pub fn print_done(
    rt: &HostRuntime,
    name: &str,
    done: &str,
    answer: Result<(), Refusal>,
) -> io::Result<()> {
    match answer {
        Ok(()) => println!(rt; "{name}: {done}"),
        Err(refusal) => print_answer(rt, name, Err(refusal)),
    }
}

// The name of a case, and the answer for the file that it gives.
pub fn print_case(rt: &HostRuntime, side: Side, name: &str, file: &[u8]) -> io::Result<()> {
    let answer = match side {
        Side::Program => answer(file, SMALL_CERTIFICATE),
        Side::Certificate => answer(SMALL_PROGRAM, file),
    };
    print_answer(rt, name, answer)
}

// How many bytes of a file on the disk are read, and the answer for them.
pub fn print_read(rt: &HostRuntime, name: &str, file: &str) -> io::Result<()> {
    let bytes = read_front(rt, file)?;
    let count = bytes.len();
    println!(rt; "{name}: {count} bytes read")?;
    print_case(rt, Side::Program, name, &bytes)
}

// The same for a file that was built.
pub fn print_built(rt: &HostRuntime, side: Side, name: &str, file: FileBytes) -> io::Result<()> {
    print_case(rt, side, name, file.as_slice())
}

// The same for two files that were built.
pub fn print_pair(
    rt: &HostRuntime,
    name: &str,
    program: FileBytes,
    certificate: FileBytes,
) -> io::Result<()> {
    print_answer(rt, name, answer(program.as_slice(), certificate.as_slice()))
}

// A line for each file.
pub fn print_bytes(rt: &HostRuntime, side: Side, cases: &[ByteCase]) -> io::Result<()> {
    for (name, file) in cases {
        print_case(rt, side, name, file)?;
    }
    Ok(())
}

// A line for each file.
pub fn print_records(rt: &HostRuntime, side: Side, cases: &[RecordCase]) -> io::Result<()> {
    for (name, records) in cases {
        print_built(rt, side, name, FileBytes::of_records(rt.alloc(), records)?)?;
    }
    Ok(())
}

// A line for each certificate.
pub fn print_tried(rt: &HostRuntime, tried: &Tried) -> io::Result<()> {
    let program = FileBytes::of_records(rt.alloc(), tried.program)?;
    for (name, claims) in tried.certificates {
        let certificate = FileBytes::of_claims(rt.alloc(), tried.n, tried.order, claims)?;
        print_answer(rt, name, answer(program.as_slice(), certificate.as_slice()))?;
    }
    Ok(())
}

// The small file of a side, cut before each of its bytes, and whole.
pub fn print_cuts(rt: &HostRuntime, side: Side) -> io::Result<()> {
    let (word, file) = match side {
        Side::Program => ("program", SMALL_PROGRAM),
        Side::Certificate => ("certificate", SMALL_CERTIFICATE),
    };
    for length in 0..=file.len() {
        let name = format!(in rt.alloc(); "{word} cut to {length} bytes")?;
        print_case(rt, side, &name, &file[0..length])?;
    }
    Ok(())
}
