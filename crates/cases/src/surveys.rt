// Cases for the tables of a survey.
use crate::verdicts::NO_FACT;
use levels::order::StoredLevel;
use levels::table::{Entry, LevelTable};
use orders::numbers::Number;
use orders::routes::Route;
use program_file::file::ProgramFile;
use refusal::Refusal;
use samples::bytes::{Claim, FileBytes, Order, Records};
use samples::entries::{entries_of, numbers_of};
use samples::lines::{RecordCase, print_answer, print_done};
use samples::programs::{LOOP_ALONE, LOOP_WITH_ENTRY};
use std::alloc::{AllocError, Global};
use std::io;
use survey::making::{can_make, can_make_from, make, make_from};
use verdict::{Verdict, judge};

// How many entries each table has.
#[derive(Clone, Copy)]
struct Lengths {
    marks: usize,
    levels: usize,
}

// Whether a survey could be made, and the tables as making it leaves them.
#[derive(Drop)]
struct Left {
    answer: Result<(), Refusal>,
    marks: Vec<u8>,
    levels: Vec<Option<u64>>,
}

// A name, the marks, and the levels.
type TableCase = (&'static str, &'static [u8], &'static [Option<u32>]);

// One entry for each of four atoms.
const FITTING: Lengths = Lengths {
    marks: 4,
    levels: 4,
};

// Lengths of the marks and of the levels.
const LENGTHS: &[(&str, usize, usize)] = &[
    ("tables that fit", 4, 4),
    ("marks too short", 3, 4),
    ("marks too long", 5, 4),
    ("levels too short", 4, 3),
    ("levels too long", 4, 5),
    ("marks too long, levels too short", 5, 3),
    ("empty tables", 0, 0),
];

// What the certificate for these tables claims.
const CLAIMS: &[Claim] = &[(1, Some(1)), (2, None), (3, Some(3))];

// Certificates from which no survey over numbers is made.
const REFUSED: &[RecordCase] = &[
    ("from no bytes", &[]),
    (
        "from routes",
        &[&[4, 17, 4, 2], &[10, 18, 1, 0, 0, 0, 0], &[0, 3]],
    ),
    (
        "from a certificate for three atoms",
        &[&[4, 17, 3, 1], &[6, 18, 1, 1, 0], &[0, 3]],
    ),
    (
        "from a repeated claim",
        &[
            &[4, 17, 4, 1],
            &[6, 18, 1, 1, 0],
            &[6, 18, 1, 1, 0],
            &[0, 3],
        ],
    ),
];

// Levels for four atoms, and for three.
const FOUR: &[Option<u32>] = &[Some(1), Some(2), Some(3), None];

const THREE: &[Option<u32>] = &[Some(1), Some(2), Some(3)];

const OVER_LOOP_WITH_ENTRY: &[TableCase] = &[
    ("three marks", &[1, 1, 1], FOUR),
    ("five marks", &[1, 1, 1, 0, 0], FOUR),
    ("three levels", &[1, 1, 1, 0], THREE),
    ("five marks, three levels", &[1, 1, 1, 0, 0], THREE),
    ("mark byte 3 of 2 and 4", &[1, 3, 0, 3], FOUR),
    ("mark byte 255 of 4", &[1, 1, 1, 255], FOUR),
    ("mark byte 3, three levels", &[3, 0, 0, 0], THREE),
    ("mark byte 3, three marks", &[3, 0, 0], FOUR),
    ("lawful marks", &[1, 1, 1, 0], FOUR),
    ("doubted marks", &[2, 1, 2, 0], FOUR),
    ("levels without marks", &[0, 0, 0, 0], FOUR),
];

const OVER_LOOP_ALONE: &[TableCase] = &[(
    "loop alone, 1 out with a lower level",
    &[0, 1, 1, 0],
    FOUR,
)];

const OVER_NO_FACT: &[TableCase] = &[(
    "1 from 2, 2 out with a lower level",
    &[1, 0],
    &[Some(5), Some(1)],
)];

pub fn print_all(rt: &HostRuntime) -> io::Result<()> {
    for (name, marks, levels) in LENGTHS {
        print_lengths(
            rt,
            name,
            Lengths {
                marks: *marks,
                levels: *levels,
            },
        )?;
    }
    print_refused(rt)?;
    print_judged(rt, LOOP_WITH_ENTRY, OVER_LOOP_WITH_ENTRY)?;
    print_judged(rt, LOOP_ALONE, OVER_LOOP_ALONE)?;
    print_judged(rt, NO_FACT, OVER_NO_FACT)
}

// Surveys of tables of these lengths: with nothing claimed, with numbers, and with routes.
fn print_lengths(rt: &HostRuntime, name: &str, lengths: Lengths) -> io::Result<()> {
    let number = Number { value: 9 };
    print_left(
        rt,
        name,
        "nothing claimed",
        left_of(rt.alloc(), lengths, number, None)?,
    )?;
    let numbers = FileBytes::of_claims(rt.alloc(), 4, Order::Numbers, CLAIMS)?;
    print_left(
        rt,
        name,
        "numbers claimed",
        left_of(rt.alloc(), lengths, number, Some(numbers))?,
    )?;
    let route = Route { repeaters: 9 };
    let routes = FileBytes::of_claims(rt.alloc(), 4, Order::Routes, CLAIMS)?;
    print_left(
        rt,
        name,
        "routes claimed",
        left_of(rt.alloc(), lengths, route, Some(routes))?,
    )
}

// Surveys from certificates that are refused, in tables that fit.
fn print_refused(rt: &HostRuntime) -> io::Result<()> {
    for (how, records) in REFUSED {
        let file = FileBytes::of_records(rt.alloc(), records)?;
        let left = left_of(rt.alloc(), FITTING, Number { value: 9 }, Some(file))?;
        print_left(rt, "tables that fit", how, left)?;
    }
    Ok(())
}

fn print_left(rt: &HostRuntime, name: &str, how: &str, left: Left) -> io::Result<()> {
    print!(rt; "{name}, ")?;
    print_done(rt, how, "can be made", left.answer)?;
    println!(rt;
        "{name}, {how}: leaves marks {:?}, levels {:?}",
        left.marks, left.levels
    )
}

// Makes a survey of tables that hold something, from a certificate where there is one.
fn left_of<L: StoredLevel + Into<u64>>(
    heap: Global,
    lengths: Lengths,
    old: L,
    certificate: Option<FileBytes>,
) -> Result<Left, AllocError> {
    let program = FileBytes::of_records(heap, LOOP_WITH_ENTRY)?;
    let mut marks = vec![in heap; 2u8; lengths.marks]?;
    let mut entries = vec![in heap; Some(old); lengths.levels]?;
    let answer = match certificate {
        Some(file) => make_from_over(
            program.as_slice(),
            file.as_slice(),
            &mut marks,
            &mut entries,
        ),
        None => make_over(program.as_slice(), &mut marks, &mut entries),
    };
    let levels = numbers_of(heap, &entries)?;
    Ok(Left {
        answer,
        marks,
        levels,
    })
}

// A line for each pair of tables.
fn print_judged(rt: &HostRuntime, records: Records, cases: &[TableCase]) -> io::Result<()> {
    let program = FileBytes::of_records(rt.alloc(), records)?;
    for (name, marks, levels) in cases {
        let mut entries = entries_of(rt.alloc(), levels)?;
        print_answer(
            rt,
            name,
            judge_over(program.as_slice(), marks, &mut entries),
        )?;
    }
    Ok(())
}

// Makes a survey over a program file, and answers whether it could be made.
fn make_over<L: StoredLevel>(
    program: &[u8],
    marks: &mut [u8],
    entries: &mut [Entry<L>],
) -> Result<(), Refusal> {
    let file = ProgramFile::read(program)?;
    let mut levels = LevelTable::over(entries);
    let answer = can_make(&file, marks, &levels);
    make(marks, &mut levels);
    answer
}

// The same from a certificate.
fn make_from_over<L: StoredLevel>(
    program: &[u8],
    certificate: &[u8],
    marks: &mut [u8],
    entries: &mut [Entry<L>],
) -> Result<(), Refusal> {
    let file = ProgramFile::read(program)?;
    let mut levels = LevelTable::over(entries);
    let answer = can_make_from(&file, marks, &levels, certificate);
    make_from(&file, marks, &mut levels, certificate);
    answer
}

// Judges tables over a program file.
fn judge_over(
    program: &[u8],
    marks: &[u8],
    entries: &mut [Entry<Number>],
) -> Result<Verdict, Refusal> {
    let file = ProgramFile::read(program)?;
    let levels = LevelTable::over(entries);
    judge(&file, marks, &levels)
}
