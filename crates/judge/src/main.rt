// `judge`: reads `program.bin` and `certificate.bin` in the current folder, and prints one line.
#![tactic(auto)]

use console::line::line_for;
use files::read_front;
use std::io;

fn main(rt: HostRuntime) -> io::Result<()> {
    let program = read_front(&rt, "program.bin")?;
    let certificate = read_front(&rt, "certificate.bin")?;
    let line = line_for(rt.alloc(), &program, &certificate)?;
    print!(rt; "{line}")
}
