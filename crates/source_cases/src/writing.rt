// Cases for the writer.
ghost use Rattle.std.specs.Prelude.{◌≡◌, ◌+◌, ◌*◌, ◌≤◌, IfOk, vec_len};

use crate::asking::print_rules_in;
use crate::input_atoms::{BOTH_PARTS, put_first};
use crate::repeated::Repeated;
use inputs::Inputs;
use program_file::file::ProgramFile;
use refusal::Refusal;
use rules::RuleSource;
use samples::bytes::FileBytes;
use samples::lines::{RecordCase, SMALL_PROGRAM, print_answer};
use std::alloc::{AllocError, Global};
use std::io;
use writer::write;

// What each byte of an output is before it is written.
const OLD: u8 = 0xAA;

// What the writer answered, and the output afterwards; all of it is kept, since the bytes past those written are shown too.
#[derive(Drop)]
pub struct Output {
    answer: Result<usize, Refusal>,
    bytes: Vec<u8>,
}

// Programs that are read and written again.
const SAME: &[RecordCase] = &[
    ("no atoms and no rules", &[&[4, 1, 0, 0], &[0, 3]]),
    ("both parts", BOTH_PARTS),
];

// A name, how often the fact is repeated, and how long the output is.
const REPEATED: &[(&str, u16, usize)] = &[
    ("fact 8000 times", 8000, 65000),
    ("fact 8000 times, room for 64012 bytes", 8000, 64012),
    ("fact 8000 times, room for 64011 bytes", 8000, 64011),
    ("fact 8001 times", 8001, 65000),
    ("fact 8001 times, no room", 8001, 0),
    ("fact 16384 times", 16384, 65000),
];

impl Output {
    // The bytes that were written; none where the source was refused.
    pub fn file(&self) -> &[u8] {
        &self.bytes[0..self.split()]
    }

    // The other bytes.
    fn rest(&self) -> &[u8] {
        &self.bytes[self.split()..]
    }

    // Where the bytes that were written end.
    fn split(&self) -> usize
        ensures bound { result ≤ vec_len self.now.bytes }
    {
        self.answer.unwrap_or(0).min(self.bytes.len())
    }
}

pub fn print_all(rt: &HostRuntime) -> io::Result<()> {
    for room in &[22, 21, 0, 30] {
        print_small(rt, *room)?;
    }
    print_same(rt, "small program", SMALL_PROGRAM)?;
    for (name, records) in SAME {
        let program = FileBytes::of_records(rt.alloc(), records)?;
        print_same(rt, name, program.as_slice())?;
    }
    print_same(
        rt,
        "largest program",
        FileBytes::largest(rt.alloc())?.as_slice(),
    )?;
    print_same(rt, "8000 facts", facts_file(rt.alloc(), 8000)?.as_slice())?;
    print_same(
        rt,
        "126 long rules",
        long_rules(rt.alloc(), 115)?.as_slice(),
    )?;
    for (name, rules, room) in REPEATED {
        let output = written(rt.alloc(), &Repeated { rules: *rules }, *room)?;
        print_output(rt, name, &output)?;
    }
    print_with_inputs(rt)
}

// The program file of a source, at the front of an output of as many bytes.
pub fn written<S: RuleSource>(heap: Global, source: &S, room: usize) -> Result<Output, AllocError> {
    let mut bytes = vec![in heap; OLD; room]?;
    let answer = write(source, &mut bytes);
    Ok(Output { answer, bytes })
}

// The answer, whether the other bytes are as they were, and the rules that are read from what was written.
pub fn print_output(rt: &HostRuntime, name: &str, output: &Output) -> io::Result<()> {
    match output.answer {
        Ok(size) => println!(rt; "{name}: {size} bytes written")?,
        Err(refusal) => print_answer(rt, name, Err(refusal))?,
    }
    let rest = output.rest();
    let count = rest.len();
    let how = if are_old(rest) {
        "as they were"
    } else {
        "changed"
    };
    println!(rt; "{name}: {count} other bytes {how}")?;
    if output.answer.is_ok() {
        print_rules_in(rt, name, output.file())?;
    }
    Ok(())
}

fn are_old(bytes: &[u8]) -> bool {
    bytes.iter().all(|byte| *byte == OLD)
}

// Each byte as two digits.
pub fn print_digits(rt: &HostRuntime, name: &str, bytes: &[u8]) -> io::Result<()> {
    print!(rt; "{name}: bytes")?;
    for byte in bytes {
        print!(rt; " {byte:02x}")?;
    }
    println!(rt; "")
}

// The small program in an output of as many bytes.
fn print_small(rt: &HostRuntime, room: usize) -> io::Result<()> {
    let name = format!(in rt.alloc(); "small program, room for {room} bytes")?;
    let output = written_from(rt.alloc(), ProgramFile::read(SMALL_PROGRAM), room)?;
    print_output(rt, &name, &output)?;
    print_digits(rt, &name, &output.bytes)
}

// A program file read and written again.
fn print_same(rt: &HostRuntime, name: &str, program: &[u8]) -> io::Result<()> {
    let output = written_from(rt.alloc(), ProgramFile::read(program), 65100)?;
    print_output(rt, name, &output)?;
    let how = if output.file() == program {
        "same bytes"
    } else {
        "other bytes"
    };
    println!(rt; "{name}: {how}")
}

// What was read, written to an output of as many bytes; nothing, where there was no source to write.
fn written_from<S: RuleSource + Drop>(
    heap: Global,
    source: Result<S, Refusal>,
    room: usize,
) -> Result<Output, AllocError> {
    match source {
        Ok(source) => written(heap, &source, room),
        Err(refusal) => Ok(Output {
            answer: Err(refusal),
            bytes: Vec::new(heap),
        }),
    }
}

// A program file with its first atoms as inputs over it.
fn with_first(program: &[u8], inputs: u16) -> Result<Inputs<ProgramFile<'_>>, Refusal> {
    let mut layer = Inputs::over(ProgramFile::read(program)?);
    put_first(&mut layer, inputs)?;
    Ok(layer)
}

// Program files with inputs over them.
fn print_with_inputs(rt: &HostRuntime) -> io::Result<()> {
    let heap = rt.alloc();
    print_layer(rt, "small program", SMALL_PROGRAM, 2, 38)?;
    let facts = facts_file(heap, 7990)?;
    print_layer(rt, "7990 facts", facts.as_slice(), 10, 65000)?;
    print_layer(rt, "7990 facts", facts.as_slice(), 11, 65000)?;
    let most = FileBytes::largest(heap)?;
    print_layer(rt, "largest program", most.as_slice(), 1, 65100)?;
    let whole = long_rules(heap, 115)?;
    print_layer(rt, "65000 bytes", whole.as_slice(), 1, 65100)?;
    print_layer(rt, "65000 bytes, no room", whole.as_slice(), 1, 0)?;
    let shorter = long_rules(heap, 111)?;
    print_layer(rt, "64992 bytes", shorter.as_slice(), 1, 65000)?;
    print_layer(rt, "64992 bytes, too short", shorter.as_slice(), 1, 64999)?;
    print_layer(rt, "64992 bytes", shorter.as_slice(), 2, 65100)
}

// A program file with its first atoms as inputs, in an output of as many bytes.
fn print_layer(
    rt: &HostRuntime,
    name: &str,
    program: &[u8],
    inputs: u16,
    room: usize,
) -> io::Result<()> {
    let name = format!(in rt.alloc(); "{name}, {inputs} put")?;
    let output = written_from(rt.alloc(), with_first(program, inputs), room)?;
    print_output(rt, &name, &output)
}

// 1 as a fact, as many times, over 100 atoms.
fn facts_file(heap: Global, many: u16) -> Result<FileBytes, AllocError>
    ensures len { IfOk result (λ file. vec_len file.bytes ≡ 12 + 8 * many) }
{
    let mut file = FileBytes::new(heap);
    file.words(&[4, 1, 100, many])?;
    file.facts(1, many)?;
    file.words(&[0, 3])?;
    Ok(file)
}

// 1 from 2 to 256 again and again, and once from as many of them.
fn long_rules(heap: Global, last: u8) -> Result<FileBytes, AllocError>
    ensures len { IfOk result (λ file. vec_len file.bytes ≡ 64770 + 2 * last) }
{
    let mut file = FileBytes::new(heap);
    file.words(&[4, 1, 256, 126])?;
    for _i in 0..125u8 {
        file.rule(1, 255, 2, 255)?;
    }
    file.rule(1, last, 2, last)?;
    file.words(&[0, 3])?;
    Ok(file)
}
