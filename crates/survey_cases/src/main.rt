// Runs cases of the calls on the tables of a survey, in groups, and prints a line for each.
#![tactic(auto)]

use crate::programs::Programs;
use samples::bytes::FileBytes;
use samples::lines::print_answer;
use samples::programs::{LOOP_ALONE, LOOP_WITH_ENTRY};
use std::io;

mod answers;
mod chains;
mod lists;
mod naming;
mod programs;
mod refuting;
mod rows;
mod settling;
mod survey_tables;

fn main(rt: HostRuntime) -> io::Result<()> {
    let with_entry = FileBytes::of_records(rt.alloc(), LOOP_WITH_ENTRY)?;
    let alone = FileBytes::of_records(rt.alloc(), LOOP_ALONE)?;
    match Programs::read(with_entry.as_slice(), alone.as_slice()) {
        Ok(programs) => print_groups(&rt, &programs),
        Err(refusal) => print_answer(&rt, "small programs", Err(refusal)),
    }
}

fn print_groups(rt: &HostRuntime, programs: &Programs) -> io::Result<()> {
    naming::print_all(rt, programs)?;
    refuting::print_all(rt, programs)?;
    settling::print_all(rt, programs)?;
    rows::print_all(rt, programs)?;
    chains::print_all(rt)?;
    lists::print_all(rt, programs)
}
