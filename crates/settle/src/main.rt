// `settle`: reads `program.bin` and `certificate.bin` in the current folder, settles the claimed atoms, and prints one line. The
// levels in the certificate are left aside.
#![tactic(auto)]

use console::answer::level_kind;
use files::read_front;
use levels::order::StoredLevel;
use levels::table::{Entry, LevelTable};
use orders::kind::LevelKind;
use orders::numbers::Number;
use orders::routes::Route;
use program_file::file::ProgramFile;
use refusal::Refusal;
use rules::RuleSource;
use settlement::{Settlement, settle};
use std::io;
use survey::making::{can_make_from, make_from};

fn main(rt: HostRuntime) -> io::Result<()> {
    let program = read_front(&rt, "program.bin")?;
    let certificate = read_front(&rt, "certificate.bin")?;
    // by reference: a file has its index inside, and each move of it is a copy
    match &ProgramFile::read(&program) {
        Ok(file) => print_answer(&rt, file, &certificate),
        Err(refusal) => println!(rt; "{refusal}"),
    }
}

// The level kind is taken from the certificate.
fn print_answer<S: RuleSource>(rt: &HostRuntime, source: &S, certificate: &[u8]) -> io::Result<()> {
    match level_kind(certificate, source.atoms()) {
        Ok(LevelKind::Numbers) => print_settled::<_, Number>(rt, source, certificate),
        Ok(LevelKind::Routes) => print_settled::<_, Route>(rt, source, certificate),
        Err(refusal) => println!(rt; "{refusal}"),
    }
}

// Settles in tables with one entry for each atom, and prints the answer.
fn print_settled<S: RuleSource, L: StoredLevel>(
    rt: &HostRuntime,
    source: &S,
    certificate: &[u8],
) -> io::Result<()> {
    let n = usize::from(source.atoms());
    let mut marks = vec![in rt.alloc(); 0u8; n]?;
    let mut entries: Vec<Entry<L>> = vec![in rt.alloc(); None; n]?;
    let mut rounds = vec![in rt.alloc(); 0u16; n]?;
    let mut levels = LevelTable::over(&mut entries);
    match settle_claims(source, &mut marks, &mut levels, &mut rounds, certificate) {
        Ok(settlement) => println!(rt; "{settlement}"),
        Err(refusal) => println!(rt; "{refusal}"),
    }
}

// Makes a survey of the tables from the certificate, and settles it.
fn settle_claims<S: RuleSource, L: StoredLevel>(
    source: &S,
    marks: &mut [u8],
    levels: &mut LevelTable<L>,
    rounds: &mut [u16],
    certificate: &[u8],
) -> Result<Settlement, Refusal> {
    can_make_from(source, marks, levels, certificate)?;
    make_from(source, marks, levels, certificate);
    settle(source, marks, levels, rounds)
}
