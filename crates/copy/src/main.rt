// `copy`: reads `program.bin` in the current folder, puts the atoms that its arguments name as inputs over it, writes all of it
// to `copy.bin`, and prints what it did.
#![tactic(auto)]

use console::line::write_line;
use files::read_front;
use inputs::Inputs;
use program_file::file::ProgramFile;
use records::MAX_BYTES;
use refusal::Refusal;
use rules::RuleSource;
use std::{env, fs, io};
use writer::write;

fn main(rt: HostRuntime) -> io::Result<()> {
    let bytes = read_front(&rt, "program.bin")?;
    match ProgramFile::read(&bytes) {
        Ok(file) => copy(&rt, &bytes, file),
        Err(refusal) => print_refusal(&rt, "program.bin", refusal),
    }
}

// Puts the inputs over the file, and writes and reads the copy. Where an input is refused, nothing is written.
fn copy(rt: &HostRuntime, bytes: &[u8], file: ProgramFile) -> io::Result<()> {
    print_counts(rt, "program.bin", &file)?;
    let mut layer = Inputs::over(file);
    if !put_all(rt, &mut layer)? {
        return println!(rt; "copy.bin: not written");
    }
    if write_copy(rt, &layer)? {
        read_copy(rt, bytes)?;
    }
    Ok(())
}

fn print_counts<S: RuleSource>(rt: &HostRuntime, name: &str, source: &S) -> io::Result<()> {
    let atoms = source.atoms();
    let rules = source.rules();
    println!(rt; "{name}: {atoms} atoms, {rules} rules")
}

fn print_refusal(rt: &HostRuntime, name: &str, refusal: Refusal) -> io::Result<()> {
    let line = write_line(rt.alloc(), Err(refusal))?;
    print!(rt; "{name}: {line}")
}

// Puts each argument as an input, until one is refused; tells whether all were put.
fn put_all<S: RuleSource>(rt: &HostRuntime, layer: &mut Inputs<S>) -> io::Result<bool> {
    let mut words = env::args(rt)?;
    words.next();
    for word in words {
        let Ok(atom) = word.as_str().parse::<u16>() else {
            println!(rt; "input {word}: not a number of 16 bits")?;
            return Ok(false);
        };
        if let Err(refusal) = layer.put(atom) {
            let name = format!(in rt.alloc(); "input {atom}")?;
            print_refusal(rt, &name, refusal)?;
            return Ok(false);
        }
        let rules = layer.rules();
        println!(rt; "input {atom}: {rules} rules")?;
    }
    Ok(true)
}

// Writes the copy, and tells whether it was written.
fn write_copy<S: RuleSource>(rt: &HostRuntime, source: &S) -> io::Result<bool> {
    // an array, since the writer takes an output of any length and tells how much of it is the file
    let mut out = [0u8; MAX_BYTES];
    match write(source, &mut out) {
        Ok(size) => {
            fs::write(rt, "copy.bin", &out[0..size])?;
            println!(rt; "copy.bin: {size} bytes written")?;
            Ok(true)
        }
        Err(refusal) => {
            print_refusal(rt, "copy.bin", refusal)?;
            Ok(false)
        }
    }
}

// Reads the copy again, and compares it with the bytes of the program.
fn read_copy(rt: &HostRuntime, program: &[u8]) -> io::Result<()> {
    let bytes = read_front(rt, "copy.bin")?;
    match ProgramFile::read(&bytes) {
        Ok(file) => print_counts(rt, "copy.bin", &file)?,
        Err(refusal) => print_refusal(rt, "copy.bin", refusal)?,
    }
    if bytes.as_slice() == program {
        return println!(rt; "copy.bin: the bytes of program.bin");
    }
    println!(rt; "copy.bin: other bytes than program.bin")
}
