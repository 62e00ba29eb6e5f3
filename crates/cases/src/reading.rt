// Cases for files on the disk, which stand in the folder `data`.
use samples::lines::print_read;
use std::io;

// A name, and that of a file: `longer.bin` is a lawful program of 65000 bytes and 100 bytes more.
const READ: &[(&str, &str)] = &[
    ("small program in a file", "small.bin"),
    ("file of 65100 bytes", "longer.bin"),
    ("file that is not there", "missing.bin"),
    ("folder in place of a file", "."),
];

pub fn print_all(rt: &HostRuntime) -> io::Result<()> {
    for (name, file) in READ {
        print_read(rt, name, file)?;
    }
    Ok(())
}
