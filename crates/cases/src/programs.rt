// Cases for the program file.
ghost use Rattle.std.specs.Prelude.{◌≡◌, IfOk, vec_len};

use samples::bytes::{Claim, FileBytes, Order};
use samples::lines::{
    ByteCase, ClaimCase, RecordCase, Side, Tried, print_built, print_bytes, print_cuts, print_pair,
    print_records, print_tried,
};
use std::alloc::{AllocError, Global};
use std::io;

const CUT_OR_TOO_LONG: &[ByteCase] = &[
    ("program of no bytes", &[]),
    ("program of three bytes", &[4, 0, 1]),
    ("program head without its numbers", &[4, 0, 1, 0]),
    ("program head one byte short", &[4, 0, 1, 0, 2, 0, 1]),
    ("program without an end", &[4, 0, 1, 0, 0, 0, 0, 0]),
    (
        "program without an end after a rule",
        &[4, 0, 1, 0, 2, 0, 1, 0, 4, 0, 2, 0, 1, 0, 0, 0],
    ),
    ("rule header cut", &[4, 0, 1, 0, 2, 0, 1, 0, 6, 0, 2]),
    (
        "rule contents cut",
        &[4, 0, 1, 0, 2, 0, 1, 0, 6, 0, 2, 0, 1, 0, 0, 0, 2],
    ),
    (
        "byte after the end of a program",
        &[4, 0, 1, 0, 0, 0, 0, 0, 0, 0, 3, 0, 0],
    ),
    (
        "rule too few and a byte after the end",
        &[4, 0, 1, 0, 2, 0, 1, 0, 0, 0, 3, 0, 7],
    ),
];

const REFUSED: &[RecordCase] = &[
    ("program head of kind 2", &[&[4, 2, 2, 0], &[0, 3]]),
    ("program head of kind 17", &[&[4, 17, 2, 1], &[0, 3]]),
    (
        "program head of kind 2 and length 6",
        &[&[6, 2, 2, 0, 0], &[0, 3]],
    ),
    (
        "kind 5 after the program head",
        &[&[4, 1, 2, 1], &[4, 5, 1, 0], &[0, 3]],
    ),
    (
        "second program head",
        &[&[4, 1, 2, 1], &[4, 1, 2, 1], &[0, 3]],
    ),
    ("program head of length 6", &[&[6, 1, 2, 0, 0], &[0, 3]]),
    ("rule of length 3", &[&[4, 1, 2, 1], &[3, 2, 1, 0], &[0, 3]]),
    (
        "rule of length 5",
        &[&[4, 1, 2, 1], &[5, 2, 1, 0, 2], &[0, 3]],
    ),
    ("rule of length 2", &[&[4, 1, 2, 1], &[2, 2, 1], &[0, 3]]),
    ("rule of length 516, cut", &[&[4, 1, 2, 1], &[516, 2, 1, 0]]),
    (
        "rule with a positive count too large",
        &[&[4, 1, 2, 1], &[6, 2, 1, 2, 2], &[0, 3]],
    ),
    ("program end of length 2", &[&[4, 1, 2, 0], &[2, 3, 0]]),
    ("4097 atoms", &[&[4, 1, 4097, 0], &[0, 3]]),
    ("8001 stated rules", &[&[4, 1, 2, 8001], &[0, 3]]),
    ("rule head n + 1", &[&[4, 1, 2, 1], &[4, 2, 3, 0], &[0, 3]]),
    (
        "positive atom 0",
        &[&[4, 1, 2, 1], &[6, 2, 1, 1, 0], &[0, 3]],
    ),
    (
        "negative atom n + 1",
        &[&[4, 1, 2, 1], &[6, 2, 1, 0, 3], &[0, 3]],
    ),
    (
        "positive atom n + 1 in the second rule",
        &[&[4, 1, 2, 2], &[4, 2, 1, 0], &[6, 2, 1, 1, 3], &[0, 3]],
    ),
    (
        "positive atoms descend",
        &[&[4, 1, 3, 1], &[8, 2, 1, 2, 3, 2], &[0, 3]],
    ),
    (
        "negative atom repeated",
        &[&[4, 1, 3, 1], &[8, 2, 1, 0, 2, 2], &[0, 3]],
    ),
    (
        "atom in both parts",
        &[&[4, 1, 2, 1], &[8, 2, 1, 1, 2, 2], &[0, 3]],
    ),
    ("rule too few", &[&[4, 1, 2, 2], &[4, 2, 1, 0], &[0, 3]]),
    ("rule too many", &[&[4, 1, 2, 0], &[4, 2, 1, 0], &[0, 3]]),
    (
        "unknown atom, descending part, atom in both parts",
        &[&[4, 1, 3, 1], &[12, 2, 1, 2, 3, 2, 2, 4], &[0, 3]],
    ),
    (
        "descending part, atom in both parts",
        &[&[4, 1, 3, 1], &[10, 2, 1, 2, 3, 2, 2], &[0, 3]],
    ),
    (
        "rule too few and an end of length 2",
        &[&[4, 1, 2, 1], &[2, 3, 0]],
    ),
];

const LAWFUL: &[Tried] = &[
    Tried {
        n: 0,
        program: &[&[4, 1, 0, 0], &[0, 3]],
        order: Order::Numbers,
        certificates: &[("no atoms and no rules", &[])],
    },
    Tried {
        n: 0,
        program: &[&[4, 1, 0, 1], &[4, 2, 0, 0], &[0, 3]],
        order: Order::Routes,
        certificates: &[("no atoms and an empty constraint", &[])],
    },
    Tried {
        n: 1,
        program: &[&[4, 1, 1, 2], &[4, 2, 1, 0], &[4, 2, 0, 0], &[0, 3]],
        order: Order::Numbers,
        certificates: &[("empty constraint after a fact", &[(1, Some(1))])],
    },
    Tried {
        n: 4096,
        program: &[&[4, 1, 4096, 1], &[4, 2, 4096, 0], &[0, 3]],
        order: Order::Numbers,
        certificates: &[("4096 atoms, the last one claimed", &[(4096, Some(1))])],
    },
];

// How many of 255 atoms are positive, and what is claimed.
const LONG_BODIES: &[(&str, u8, &[Claim])] = &[
    ("255 positive atoms, nothing claimed", 255, &[]),
    ("255 positive atoms, the head claimed", 255, &[(1, Some(0))]),
    ("255 negative atoms, nothing claimed", 0, &[]),
    ("255 negative atoms, the head claimed", 0, &[(1, Some(0))]),
];

const LARGEST: &[ClaimCase] = &[
    ("largest program, 1 claimed", &[(1, Some(1))]),
    (
        "largest program, 1 and 2 claimed",
        &[(1, Some(1)), (2, Some(0))],
    ),
];

pub fn print_all(rt: &HostRuntime) -> io::Result<()> {
    print_bytes(rt, Side::Program, CUT_OR_TOO_LONG)?;
    print_records(rt, Side::Program, REFUSED)?;
    print_cuts(rt, Side::Program)?;
    print_large(rt)?;
    for tried in LAWFUL {
        print_tried(rt, tried)?;
    }
    print_long_bodies(rt)?;
    print_largest(rt)?;
    print_most(rt)
}

fn print_most(rt: &HostRuntime) -> io::Result<()> {
    // each as a fact, and each by no repeater
    let program = with_each_atom(rt.alloc(), &[4, 1, 4096, 4096], &[4, 2], &[0])?;
    let certificate = with_each_atom(rt.alloc(), &[4, 17, 4096, 2], &[10, 18], &[0, 0, 0, 0])?;
    print_pair(rt, "4096 facts, all claimed", program, certificate)
}

// More rules and more bytes than a file may have.
fn print_large(rt: &HostRuntime) -> io::Result<()> {
    let lawful = facts_and(rt.alloc(), 1)?;
    print_built(rt, Side::Program, "8001 rules", lawful)?;
    let unknown = facts_and(rt.alloc(), 2)?;
    print_built(
        rt,
        Side::Program,
        "8001 rules, the last one with head n + 1",
        unknown,
    )?;
    let zeros = FileBytes::of_zeros(rt.alloc(), 65001)?;
    print_built(rt, Side::Program, "program of 65001 bytes 0", zeros)?;
    let mut longer = FileBytes::largest(rt.alloc())?;
    longer.byte(0)?;
    print_built(rt, Side::Program, "largest program and a byte more", longer)
}

// 8000 facts over one atom, and a rule with another head.
fn facts_and(heap: Global, head: u16) -> Result<FileBytes, AllocError>
    ensures len { IfOk result (λ file. vec_len file.bytes ≡ 64020) }
{
    let mut file = FileBytes::new(heap);
    file.words(&[4, 1, 1, 8000])?;
    file.facts(1, 8000)?;
    file.facts(head, 1)?;
    file.words(&[0, 3])?;
    Ok(file)
}

fn print_largest(rt: &HostRuntime) -> io::Result<()> {
    for (name, claims) in LARGEST {
        let program = FileBytes::largest(rt.alloc())?;
        let certificate = FileBytes::of_claims(rt.alloc(), 4096, Order::Numbers, claims)?;
        print_pair(rt, name, program, certificate)?;
    }
    Ok(())
}

fn print_long_bodies(rt: &HostRuntime) -> io::Result<()> {
    for (name, positive, claims) in LONG_BODIES {
        let program = long_body(rt.alloc(), *positive)?;
        let certificate = FileBytes::of_claims(rt.alloc(), 256, Order::Numbers, claims)?;
        print_pair(rt, name, program, certificate)?;
    }
    Ok(())
}

// 1 from as many of the atoms from 2 on, unless one of the others up to 256.
fn long_body(heap: Global, positive: u8) -> Result<FileBytes, AllocError>
    ensures len { IfOk result (λ file. vec_len file.bytes ≡ 530) }
{
    let mut file = FileBytes::new(heap);
    file.words(&[4, 1, 256, 1])?;
    file.rule(1, positive, 2, 255)?;
    file.words(&[0, 3])?;
    Ok(file)
}

// A head, a record for each of 4096 atoms, of which the words before and after the atom are given, and the end.
fn with_each_atom(
    heap: Global,
    head: &[u16],
    before: &[u16],
    after: &[u16],
) -> Result<FileBytes, AllocError> {
    let mut file = FileBytes::new(heap);
    file.words(head)?;
    for atom in 1..=4096u16 {
        file.words(before)?;
        file.word(atom)?;
        file.words(after)?;
    }
    file.words(&[0, 3])?;
    Ok(file)
}
