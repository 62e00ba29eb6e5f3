// Runs cases of files, tables and orders through the library, and prints a line for each.
#![tactic(auto)]

use std::io;

mod certificates;
mod level_orders;
mod programs;
mod reading;
mod surveys;
mod verdicts;

fn main(rt: HostRuntime) -> io::Result<()> {
    programs::print_all(&rt)?;
    certificates::print_all(&rt)?;
    verdicts::print_all(&rt)?;
    surveys::print_all(&rt)?;
    level_orders::print_all(&rt)?;
    reading::print_all(&rt)
}
