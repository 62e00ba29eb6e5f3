// Runs cases of rule sources through the library: files on the disk, inputs and layers, the writer. It prints a line for each.
#![tactic(auto)]

use std::io;

mod asking;
mod input_atoms;
mod reading;
mod repeated;
mod writing;

fn main(rt: HostRuntime) -> io::Result<()> {
    reading::print_all(&rt)?;
    input_atoms::print_all(&rt)?;
    writing::print_all(&rt)
}
