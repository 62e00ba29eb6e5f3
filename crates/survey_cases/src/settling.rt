// Cases for settle, by numbers; what it answers for want of rungs stands with the chains.
use crate::chains::{Chain, print_chain};
use crate::programs::Programs;
use crate::survey_tables::{Tables, print_settled};
use orders::numbers::Number;
use orders::routes::Route;
use program_file::file::ProgramFile;
use samples::entries::entries_of;
use std::alloc::{AllocError, Global};
use std::io;

// A name, the marks, the levels, and the rounds.
pub type SettleCase = (
    &'static str,
    &'static [u8],
    &'static [Option<u32>],
    &'static [u16],
);

// Levels and rounds for four atoms, for three and for five.
const LEVELS: &[Option<u32>] = &[Some(40), None, Some(30), Some(20)];

const THREE_LEVELS: &[Option<u32>] = &[Some(40), None, Some(30)];

const FIVE_LEVELS: &[Option<u32>] = &[Some(40), None, Some(30), Some(20), None];

const ROUNDS: &[u16] = &[9, 9, 9, 9];

const OVER_LOOP_WITH_ENTRY: &[SettleCase] = &[
    ("1 in", &[1, 0, 0, 0], LEVELS, ROUNDS),
    ("nothing marked", &[0, 0, 0, 0], LEVELS, ROUNDS),
    ("2 out, 3 doubted", &[1, 0, 2, 0], LEVELS, ROUNDS),
    ("1, 2 and 3 in", &[1, 1, 1, 0], LEVELS, ROUNDS),
    ("1 and 2 doubted, 3 in", &[2, 2, 1, 0], LEVELS, ROUNDS),
    ("all in", &[1, 1, 1, 1], LEVELS, ROUNDS),
    ("1 and 4 doubted, 2 and 3 in", &[2, 1, 1, 2], LEVELS, ROUNDS),
    ("three marks", &[1, 1, 1], LEVELS, ROUNDS),
    ("five marks", &[1, 1, 1, 0, 0], LEVELS, ROUNDS),
    ("three levels", &[1, 1, 1, 0], THREE_LEVELS, ROUNDS),
    ("five levels", &[1, 1, 1, 0], FIVE_LEVELS, ROUNDS),
    ("three rounds", &[1, 1, 1, 0], LEVELS, &[9, 9, 9]),
    ("five rounds", &[1, 1, 1, 0], LEVELS, &[9, 9, 9, 9, 9]),
    (
        "three marks, five levels, no rounds",
        &[1, 3, 1],
        FIVE_LEVELS,
        &[],
    ),
    (
        "mark byte 3, five levels, no rounds",
        &[1, 3, 1, 0],
        FIVE_LEVELS,
        &[],
    ),
    (
        "mark byte 3, three rounds",
        &[1, 3, 1, 0],
        LEVELS,
        &[9, 9, 9],
    ),
    ("mark bytes 3 and 255", &[1, 3, 1, 255], LEVELS, ROUNDS),
];

const OVER_LOOP_ALONE: &[SettleCase] = &[
    ("nothing marked", &[0, 0, 0, 0], LEVELS, ROUNDS),
    ("1 in", &[1, 0, 0, 0], LEVELS, ROUNDS),
    ("1, 2 and 3 in", &[1, 1, 1, 0], LEVELS, ROUNDS),
];

// More rounds than routes have rungs, and the same where an atom is left over.
const LONG: &[Chain<Route>] = &[
    Chain {
        name: "chain of 66 by routes, doubted",
        atoms: 66,
        rules: 66,
        mark: 2,
        entry: Some(Route { repeaters: 5 }),
    },
    Chain {
        name: "chain of 66 by routes, and one atom more",
        atoms: 67,
        rules: 66,
        mark: 1,
        entry: Some(Route { repeaters: 5 }),
    },
];

pub fn print_all(rt: &HostRuntime, programs: &Programs) -> io::Result<()> {
    println!(rt; "# settle, over the loop with entry")?;
    print_cases(rt, &programs.with_entry, OVER_LOOP_WITH_ENTRY)?;
    println!(rt; "# settle, over the loop alone")?;
    print_cases(rt, &programs.alone, OVER_LOOP_ALONE)?;
    println!(rt; "# settle, over chains with more rounds than rungs")?;
    for chain in LONG {
        print_chain(rt, chain)?;
    }
    Ok(())
}

// A line for each case.
pub fn print_cases(
    rt: &HostRuntime,
    file: &ProgramFile<'_>,
    cases: &[SettleCase],
) -> io::Result<()> {
    for case in cases {
        print_settled(rt, case.0, file, tables_of(rt.alloc(), case)?)?;
    }
    Ok(())
}

fn tables_of(heap: Global, case: &SettleCase) -> Result<Tables<Number>, AllocError> {
    Ok(Tables {
        marks: Vec::from_slice(heap, case.1)?,
        entries: entries_of(heap, case.2)?,
        rounds: Vec::from_slice(heap, case.3)?,
    })
}
