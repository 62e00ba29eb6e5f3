// What is fixed of each order of levels.
use levels::order::StoredLevel;
use orders::numbers::Number;
use orders::routes::Route;
use std::io;

pub fn print_all(rt: &HostRuntime) -> io::Result<()> {
    print_order::<Number>(rt, "numbers")?;
    print_order::<Route>(rt, "routes")?;
    print_rung::<Route>(rt, "routes", 66)
}

fn print_order<L: StoredLevel + Into<u64>>(rt: &HostRuntime, name: &str) -> io::Result<()> {
    let rungs = L::RUNGS;
    let width = L::WIDTH;
    let kind = L::KIND;
    println!(rt; "{name}: {rungs} rungs, {width} bytes, kind {kind}")?;
    print_rung::<L>(rt, name, 0)?;
    print_rung::<L>(rt, name, 1)?;
    print_rung::<L>(rt, name, rungs)
}

fn print_rung<L: StoredLevel + Into<u64>>(rt: &HostRuntime, name: &str, k: u32) -> io::Result<()> {
    match L::rung_at(k) {
        Some(level) => {
            let number: u64 = level.into();
            println!(rt; "{name}, rung {k}: {number}")
        }
        None => println!(rt; "{name}, rung {k}: none"),
    }
}
