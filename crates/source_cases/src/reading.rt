// Cases for a file that is read, written and read again; it stands in the folder `data`.
use crate::asking::print_rules_in;
use crate::writing::{print_digits, print_output, written};
use files::read_front;
use inputs::Inputs;
use program_file::file::ProgramFile;
use samples::lines::{print_answer, print_done, print_read};
use std::{fs, io};

// The file that is written.
const WRITTEN: &str = "written.bin";

pub fn print_all(rt: &HostRuntime) -> io::Result<()> {
    let small = read_front(rt, "small.bin")?;
    print_written(rt, "small program with an input", &small)
}

// Writes a program with the input 2 to a new file, and reads that.
fn print_written(rt: &HostRuntime, name: &str, program: &[u8]) -> io::Result<()> {
    match ProgramFile::read(program) {
        Ok(file) => {
            let mut layer = Inputs::over(file);
            print_done(rt, name, "accepted", layer.put(2))?;
            let output = written(rt.alloc(), &layer, 65000)?;
            print_output(rt, name, &output)?;
            fs::write(rt, WRITTEN, output.file())?;
        }
        Err(refusal) => print_answer(rt, name, Err(refusal))?,
    }
    print_read(rt, "written file", WRITTEN)?;
    let again = read_front(rt, WRITTEN)?;
    print_rules_in(rt, "written file", &again)?;
    print_digits(rt, "written file", &again)
}
