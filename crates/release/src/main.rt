// `release`: walks plans through the list of points, and prints a line for each point. A plan is a folder with a program file and
// a certificate file; each argument names one, and without an argument it is the current folder.
#![tactic(auto)]

use checklist::decide;
use files::read_front;
use std::alloc::AllocError;
use std::path::Path;
use std::{env, io};

mod points;
mod settled;
mod written;

fn main(rt: HostRuntime) -> io::Result<()> {
    let mut folders = env::args(&rt)?;
    folders.next();
    if folders.len() == 0 {
        return walk_plan(&rt, ".");
    }
    for folder in folders {
        println!(rt; "folder {folder}")?;
        walk_plan(&rt, folder.as_str())?;
    }
    Ok(())
}

// Walks the plan in a folder through the list; the last line tells how the list ends.
fn walk_plan(rt: &HostRuntime, folder: &str) -> io::Result<()> {
    let program = read_in(rt, folder, "program.bin")?;
    let certificate = read_in(rt, folder, "certificate.bin")?;
    points::print_all(rt, &program, &certificate)?;
    let outcome = decide(&program, &certificate);
    println!(rt; "{outcome}")
}

// The first bytes of a file in a folder.
fn read_in(rt: &HostRuntime, folder: &str, name: &str) -> Result<Vec<u8>, AllocError> {
    let path = Path::new(folder).join(rt.alloc(), name)?;
    read_front(rt, path.as_str())
}
