// Cases for the certificate file, over the small program.
ghost use Rattle.std.specs.Prelude.{◌≡◌, ◌+◌, IfOk, vec_len};

use console::answer::answer;
use samples::bytes::FileBytes;
use samples::lines::{
    ByteCase, RecordCase, Side, print_answer, print_built, print_bytes, print_cuts, print_records,
};
use std::alloc::{AllocError, Global};
use std::io;

const CUT_OR_TOO_LONG: &[ByteCase] = &[
    ("certificate of no bytes", &[]),
    ("certificate of three bytes", &[4, 0, 17]),
    ("certificate head without its numbers", &[4, 0, 17, 0]),
    ("certificate head one byte short", &[4, 0, 17, 0, 2, 0, 1]),
    ("certificate without an end", &[4, 0, 17, 0, 2, 0, 1, 0]),
    ("claim header cut", &[4, 0, 17, 0, 2, 0, 1, 0, 6, 0, 18]),
    (
        "claim contents cut",
        &[4, 0, 17, 0, 2, 0, 1, 0, 6, 0, 18, 0, 1, 0, 1, 0, 0],
    ),
    (
        "byte after the end of a certificate",
        &[4, 0, 17, 0, 2, 0, 1, 0, 0, 0, 3, 0, 0],
    ),
];

const REFUSED: &[RecordCase] = &[
    ("certificate head of kind 1", &[&[4, 1, 2, 1], &[0, 3]]),
    (
        "rule in a certificate",
        &[&[4, 17, 2, 1], &[4, 2, 1, 0], &[0, 3]],
    ),
    (
        "certificate head of length 6",
        &[&[6, 17, 2, 1, 0], &[0, 3]],
    ),
    (
        "claim of length 3",
        &[&[4, 17, 2, 1], &[3, 18, 1, 0], &[0, 3]],
    ),
    (
        "claim of length 4",
        &[&[4, 17, 2, 1], &[4, 18, 1, 1], &[0, 3]],
    ),
    (
        "number claim of length 10",
        &[&[4, 17, 2, 1], &[10, 18, 1, 1, 0, 0, 0], &[0, 3]],
    ),
    (
        "route claim of length 6",
        &[&[4, 17, 2, 2], &[6, 18, 1, 1, 0], &[0, 3]],
    ),
    ("certificate end of length 2", &[&[4, 17, 2, 1], &[2, 3, 0]]),
    (
        "claim of atom 0",
        &[&[4, 17, 2, 1], &[6, 18, 0, 1, 0], &[0, 3]],
    ),
    (
        "claim of atom n + 1",
        &[&[4, 17, 2, 1], &[6, 18, 3, 1, 0], &[0, 3]],
    ),
    (
        "claim repeated",
        &[
            &[4, 17, 2, 1],
            &[6, 18, 1, 1, 0],
            &[6, 18, 1, 2, 0],
            &[0, 3],
        ],
    ),
    (
        "claims descend",
        &[&[4, 17, 2, 1], &[2, 18, 2], &[2, 18, 1], &[0, 3]],
    ),
    (
        "third claim of two atoms, repeated",
        &[
            &[4, 17, 2, 1],
            &[2, 18, 1],
            &[2, 18, 2],
            &[2, 18, 2],
            &[0, 3],
        ],
    ),
    (
        "third claim of two atoms, n + 1",
        &[
            &[4, 17, 2, 1],
            &[2, 18, 1],
            &[2, 18, 2],
            &[2, 18, 3],
            &[0, 3],
        ],
    ),
    ("level kind 0", &[&[4, 17, 2, 0], &[0, 3]]),
    ("level kind 3", &[&[4, 17, 2, 3], &[0, 3]]),
    (
        "level kind 3 and a rule after the head",
        &[&[4, 17, 2, 3], &[4, 2, 1, 0], &[0, 3]],
    ),
    ("certificate for three atoms", &[&[4, 17, 3, 1], &[0, 3]]),
    (
        "certificate for three atoms, level kind 9",
        &[&[4, 17, 3, 9], &[0, 3]],
    ),
];

pub fn print_all(rt: &HostRuntime) -> io::Result<()> {
    print_bytes(rt, Side::Certificate, CUT_OR_TOO_LONG)?;
    print_records(rt, Side::Certificate, REFUSED)?;
    print_cuts(rt, Side::Certificate)?;
    print_large(rt)?;
    print_answer(rt, "both files of no bytes", answer(&[], &[]))?;
    println!(rt; "reason 17: given for no certificate, as is proved of certificate::check")
}

// As many bytes as a file may have, and more.
fn print_large(rt: &HostRuntime) -> io::Result<()> {
    let zeros = FileBytes::of_zeros(rt.alloc(), 65001)?;
    print_built(rt, Side::Certificate, "certificate of 65001 bytes 0", zeros)?;
    let most = ended_and(rt.alloc(), 64988)?;
    print_built(rt, Side::Certificate, "certificate of 65000 bytes", most)?;
    let more = ended_and(rt.alloc(), 64989)?;
    print_built(rt, Side::Certificate, "certificate of 65001 bytes", more)
}

// A certificate that claims nothing, and as many bytes after its end.
fn ended_and(heap: Global, many: u32) -> Result<FileBytes, AllocError>
    ensures len { IfOk result (λ file. vec_len file.bytes ≡ 12 + many) }
{
    let mut file = FileBytes::new(heap);
    file.words(&[4, 17, 2, 1, 0, 3])?;
    file.zeros(many)?;
    Ok(file)
}
