// Cases for mark, unmark, doubt and level, each on the same tables.
use crate::answers::done_text;
use crate::programs::Programs;
use levels::table::LevelTable;
use marks::calls::{doubt, mark, unmark};
use orders::numbers::Number;
use program_file::file::ProgramFile;
use refusal::Refusal;
use samples::entries::{entries_of, numbers_of};
use std::io;
use survey::levelling::level;

// A name, the marks, the levels, and the atom that the calls name.
type NamedCase = (&'static str, &'static [u8], &'static [Option<u32>], u16);

// The level that is given.
const GIVEN: Number = Number { value: 7 };

// Marks and levels for four atoms.
const MARKS: &[u8] = &[1, 0, 2, 1];

const LEVELS: &[Option<u32>] = &[Some(1), Some(2), None, Some(4)];

// Levels for three atoms, and for five.
const SHORT: &[Option<u32>] = &[Some(1), None, Some(3)];

const LONG: &[Option<u32>] = &[Some(1), None, Some(3), None, Some(5)];

const NAMED: &[NamedCase] = &[
    ("lowest atom, in", MARKS, LEVELS, 1),
    ("out", MARKS, LEVELS, 2),
    ("doubted", MARKS, LEVELS, 3),
    ("highest atom, in", MARKS, LEVELS, 4),
    ("no atom", MARKS, LEVELS, 0),
    ("past the highest atom", MARKS, LEVELS, 5),
    ("far past the highest atom", MARKS, LEVELS, 65535),
    ("three marks", &[1, 0, 2], LEVELS, 2),
    ("five marks", &[1, 0, 2, 1, 0], LEVELS, 2),
    ("three levels", MARKS, SHORT, 2),
    ("five levels", MARKS, LONG, 2),
    ("mark bytes 3 and 255", &[1, 0, 3, 255], LEVELS, 2),
    ("mark byte 3 of the atom", &[1, 3, 0, 0], LEVELS, 2),
    ("three marks with byte 3", &[3, 0, 2], LEVELS, 0),
    (
        "mark byte 3, past the highest atom",
        &[1, 0, 2, 3],
        LEVELS,
        5,
    ),
    ("three levels, no atom", MARKS, SHORT, 0),
    ("empty tables", &[], &[], 1),
];

pub fn print_all(rt: &HostRuntime, programs: &Programs) -> io::Result<()> {
    println!(rt; "# mark, unmark, doubt and level, over the loop with entry")?;
    for case in NAMED {
        print_named(rt, &programs.with_entry, case)?;
    }
    Ok(())
}

// Each call on tables of its own.
fn print_named(rt: &HostRuntime, file: &ProgramFile<'_>, case: &NamedCase) -> io::Result<()> {
    let (name, marks, levels, atom) = *case;
    let mut marked = Vec::from_slice(rt.alloc(), marks)?;
    let answer = mark(file, &mut marked, atom);
    print_marks(rt, name, "mark", answer, &marked)?;
    let mut unmarked = Vec::from_slice(rt.alloc(), marks)?;
    let answer = unmark(file, &mut unmarked, atom);
    print_marks(rt, name, "unmark", answer, &unmarked)?;
    let mut doubted = Vec::from_slice(rt.alloc(), marks)?;
    let answer = doubt(file, &mut doubted, atom);
    print_marks(rt, name, "doubt", answer, &doubted)?;
    let mut entries = entries_of(rt.alloc(), levels)?;
    let answer = level(file, &mut LevelTable::over(&mut entries), atom, GIVEN);
    let answer = done_text(rt.alloc(), answer)?;
    let levels = numbers_of(rt.alloc(), &entries)?;
    println!(rt; "{name}, level: {answer}; levels {levels:?}")
}

fn print_marks(
    rt: &HostRuntime,
    name: &str,
    call: &str,
    answer: Result<(), Refusal>,
    marks: &[u8],
) -> io::Result<()> {
    let answer = done_text(rt.alloc(), answer)?;
    println!(rt; "{name}, {call}: {answer}; marks {marks:?}")
}
