// Cases for lists of calls, each performed call by call, and then on the same tables as one list.
use crate::answers::{loan_text, told_text};
use crate::programs::Programs;
use levels::table::{Entry, LevelTable};
use orders::numbers::Number;
use program_file::file::ProgramFile;
use samples::bytes::{Claim, FileBytes, Order};
use samples::entries::{entries_of, numbers_of};
use session::{Answer, Ask, Call, Loan, Question, perform, run, run_from};
use std::alloc::{AllocError, Global};
use std::io;

// A call, and what it is lent: a round table, and questions for a trial.
type Lent = (Call<Number>, &'static [u16], &'static [Question]);

// A list of calls, and the tables on which it begins.
#[derive(Clone, Copy)]
struct List {
    name: &'static str,
    marks: &'static [u8],
    levels: &'static [Option<u32>],
    calls: &'static [Lent],
}

// What a call is lent, in tables of its own.
#[derive(Drop)]
struct Lending {
    rounds: Vec<u16>,
    inside: Vec<Ask>,
}

const JUDGE: Call<Number> = Call::Ask(Question::Judge);

const REFUTE: Call<Number> = Call::Ask(Question::Refute);

const BOTH: &[Question] = &[Question::Judge, Question::Refute];

// Calls of which only some have a loan.
const MARKED: &[Call<Number>] = &[Call::Mark(1), Call::Mark(2), Call::Mark(3)];

// What the certificate claims.
const CLAIMS: &[Claim] = &[(1, Some(1)), (2, Some(2)), (3, Some(3))];

const NO_LEVELS: &[Option<u32>] = &[None; 4];

const LISTS: &[List] = &[
    List {
        name: "to a ranking",
        marks: &[0, 0, 0, 0],
        levels: NO_LEVELS,
        calls: &[
            (JUDGE, &[], &[]),
            (Call::Mark(1), &[], &[]),
            (Call::Mark(1), &[], &[]),
            (Call::Mark(2), &[], BOTH),
            (Call::Mark(5), &[], &[]),
            (Call::Doubt(3), &[], &[]),
            (
                Call::Trial(3),
                &[9, 9, 9, 9],
                &[Question::Judge, Question::Refute, Question::Judge],
            ),
            (JUDGE, &[], &[]),
            (Call::Settle, &[9, 9, 9], &[]),
            (Call::Settle, &[9, 9, 9, 9], &[]),
            (Call::Mark(3), &[], &[]),
            (Call::Settle, &[4, 5, 6, 7], BOTH),
            (JUDGE, &[9, 9, 9, 9], &[]),
            (REFUTE, &[], &[]),
            (Call::Trial(2), &[], BOTH),
            (Call::Trial(4), &[], BOTH),
            (Call::Level(4, Number { value: 9 }), &[], &[]),
            (Call::Trial(4), &[], BOTH),
            (Call::Level(3, Number { value: 2 }), &[], &[]),
            (JUDGE, &[], &[]),
            (Call::Level(0, Number { value: 3 }), &[], &[]),
            (Call::Level(3, Number { value: 3 }), &[], &[]),
            (Call::Level(3, Number { value: 3 }), &[], &[]),
            (JUDGE, &[], &[]),
            (Call::Unmark(1), &[], &[]),
            (Call::Unmark(1), &[], &[]),
            (JUDGE, &[], &[]),
        ],
    },
    List {
        name: "through a loop",
        marks: &[1, 1, 1, 1],
        levels: &[None, None, None, Some(8)],
        calls: &[
            (REFUTE, &[], &[]),
            (Call::Settle, &[9, 9, 9, 9], &[]),
            (REFUTE, &[], &[]),
            (JUDGE, &[], &[]),
            (Call::Trial(2), &[], BOTH),
            (Call::Trial(4), &[], BOTH),
            (Call::Doubt(1), &[], &[]),
            (REFUTE, &[], &[]),
            (Call::Trial(1), &[], BOTH),
            (Call::Mark(1), &[], &[]),
            (Call::Unmark(4), &[], &[]),
            (Call::Doubt(4), &[], &[]),
            (REFUTE, &[], &[]),
            (Call::Settle, &[9, 9, 9, 9], &[]),
            (JUDGE, &[], &[]),
            (Call::Trial(0), &[], BOTH),
            (Call::Trial(5), &[], &[]),
            (Call::Trial(2), &[], BOTH),
            (Call::Doubt(2), &[], &[]),
            (Call::Mark(2), &[], &[]),
            (Call::Mark(3), &[], &[]),
            (Call::Settle, &[], &[]),
            (Call::Settle, &[1, 2, 3, 0, 5], &[]),
            (Call::Settle, &[1, 2, 3, 0], &[]),
            (JUDGE, &[], &[]),
        ],
    },
    List {
        name: "three marks",
        marks: &[1, 0, 2],
        levels: NO_LEVELS,
        calls: &[
            (Call::Mark(2), &[], &[]),
            (Call::Unmark(1), &[], &[]),
            (Call::Doubt(1), &[], &[]),
            (Call::Level(1, Number { value: 1 }), &[], &[]),
            (Call::Trial(1), &[], BOTH),
            (Call::Settle, &[9, 9, 9], &[]),
        ],
    },
    List {
        name: "mark byte 3",
        marks: &[1, 3, 1, 0],
        levels: NO_LEVELS,
        calls: &[
            (Call::Mark(2), &[], &[]),
            (Call::Unmark(2), &[], &[]),
            (Call::Level(2, Number { value: 1 }), &[], &[]),
            (Call::Trial(2), &[], BOTH),
            (Call::Settle, &[9, 9, 9, 9], &[]),
        ],
    },
    List {
        name: "three levels",
        marks: &[1, 1, 1, 0],
        levels: &[Some(1), None, Some(3)],
        calls: &[
            (Call::Level(2, Number { value: 2 }), &[], &[]),
            (Call::Trial(1), &[], BOTH),
            (Call::Doubt(2), &[], &[]),
            (Call::Settle, &[9, 9, 9, 9], &[]),
        ],
    },
];

pub fn print_all(rt: &HostRuntime, programs: &Programs) -> io::Result<()> {
    println!(rt; "# lists of calls, over the loop with entry")?;
    for list in LISTS {
        let name = list.name;
        println!(rt; "## {name}, one call at a time")?;
        print_in_parts(rt, &programs.with_entry, list, 1)?;
        println!(rt; "## {name}, as one list")?;
        print_in_parts(rt, &programs.with_entry, list, list.calls.len())?;
    }
    for many in 0..=MARKED.len() {
        print_uneven(rt, &programs.with_entry, &MARKED[..many])?;
    }
    print_made(rt, &programs.with_entry)
}

// Performs the calls of a list, so many at a time; prints each answer, and the tables after each time.
fn print_in_parts(
    rt: &HostRuntime,
    file: &ProgramFile<'_>,
    list: &List,
    size: usize,
) -> io::Result<()> {
    let heap = rt.alloc();
    let name = list.name;
    let mut marks = Vec::from_slice(heap, list.marks)?;
    let mut entries = entries_of(heap, list.levels)?;
    for part in list.calls.chunks(size.max(1)) {
        for text in &performed(heap, file, &mut marks, &mut entries, part)? {
            println!(rt; "{name}, {text}")?;
        }
        let levels = numbers_of(heap, &entries)?;
        println!(rt; "{name}, marks {marks:?}, levels {levels:?}")?;
    }
    Ok(())
}

// Performs a list of calls, and answers what each was answered.
fn performed(
    heap: Global,
    file: &ProgramFile<'_>,
    marks: &mut [u8],
    entries: &mut [Entry<Number>],
    part: &[Lent],
) -> Result<Vec<String>, AllocError> {
    let calls: Vec<Call<Number>> = part.iter().map(|lent| lent.0).collect(heap)?;
    let mut lendings = Vec::new(heap);
    for lent in part {
        lendings.push(lending_of(heap, lent)?)?;
    }
    let mut loans: Vec<Loan> = lendings
        .iter_mut()
        .map(|lending| Loan {
            rounds: &mut lending.rounds,
            inside: &mut lending.inside,
            answer: None,
        })
        .collect(heap)?;
    perform(
        file,
        marks,
        &mut LevelTable::over(entries),
        &calls,
        &mut loans,
    );
    let mut texts = Vec::new(heap);
    for (call, loan) in calls.iter().zip(loans.iter()) {
        texts.push(loan_text(heap, *call, loan)?)?;
    }
    Ok(texts)
}

fn lending_of(heap: Global, lent: &Lent) -> Result<Lending, AllocError> {
    let inside = lent
        .2
        .iter()
        .map(|question| Ask {
            question: *question,
            answer: None,
        })
        .collect(heap)?;
    Ok(Lending {
        rounds: Vec::from_slice(heap, lent.1)?,
        inside,
    })
}

// Performs calls with two loans: a call without a loan is not performed, and a loan without a call gets no answer.
fn print_uneven(
    rt: &HostRuntime,
    file: &ProgramFile<'_>,
    calls: &[Call<Number>],
) -> io::Result<()> {
    let many = calls.len();
    let mut marks = [0u8; 4];
    let mut entries: [Entry<Number>; 4] = [None; 4];
    let mut loans = [
        Loan {
            rounds: &mut [],
            inside: &mut [],
            answer: None,
        },
        Loan {
            rounds: &mut [],
            inside: &mut [],
            answer: None,
        },
    ];
    perform(
        file,
        &mut marks,
        &mut LevelTable::over(&mut entries),
        calls,
        &mut loans,
    );
    let first = told_text(rt.alloc(), loans[0].answer)?;
    let second = told_text(rt.alloc(), loans[1].answer)?;
    println!(rt; "{many} calls and two loans: {first}, {second}; marks {marks:?}")
}

// Lists that begin by making the survey, on tables that hold something: with nothing claimed, and from a certificate.
fn print_made(rt: &HostRuntime, file: &ProgramFile<'_>) -> io::Result<()> {
    let heap = rt.alloc();
    let certificate = FileBytes::of_claims(heap, 4, Order::Numbers, CLAIMS)?;
    let mut marks = [2u8; 4];
    let mut entries = [Some(Number { value: 9 }); 4];
    let mut loans = [Loan {
        rounds: &mut [9u16; 4],
        inside: &mut [],
        answer: None,
    }];
    let mut levels = LevelTable::over(&mut entries);
    run(file, &mut marks, &mut levels, &[JUDGE], &mut loans);
    let text = told_text(heap, loans[0].answer)?;
    println!(rt; "made with nothing claimed, judge: {text}; marks {marks:?}")?;
    run_from(
        file,
        &mut marks,
        &mut levels,
        certificate.as_slice(),
        &[JUDGE],
        &mut loans,
    );
    let text = told_text(heap, loans[0].answer)?;
    let levels = numbers_of(heap, &entries)?;
    println!(rt; "made from a certificate, judge: {text}; marks {marks:?}, levels {levels:?}")
}
