// Cases for refute.
use crate::answers::answer_text;
use crate::programs::Programs;
use program_file::file::ProgramFile;
use refutation::refute;
use std::io;

// A name, and the marks.
type MarkCase = (&'static str, &'static [u8]);

const OVER_LOOP_WITH_ENTRY: &[MarkCase] = &[
    ("nothing marked", &[0, 0, 0, 0]),
    ("nothing doubted", &[1, 1, 1, 0]),
    ("loop doubted, entry open", &[1, 2, 2, 0]),
    ("loop doubted, entry closed by 4", &[1, 2, 2, 1]),
    ("fact doubted", &[2, 1, 1, 0]),
    ("all doubted", &[2, 2, 2, 2]),
    ("all but the fact doubted", &[0, 2, 2, 2]),
    ("4 doubted, which has no rule", &[1, 1, 1, 2]),
    ("three marks", &[1, 2, 2]),
    ("five marks", &[1, 2, 2, 0, 0]),
    ("no marks", &[]),
    ("mark bytes 3 and 255", &[2, 3, 2, 255]),
    (
        "mark byte 255 of the last, nothing doubted",
        &[1, 1, 1, 255],
    ),
    ("three marks with byte 3", &[3, 2, 2]),
];

const OVER_LOOP_ALONE: &[MarkCase] = &[
    ("nothing doubted", &[0, 1, 1, 0]),
    ("loop doubted", &[0, 2, 2, 0]),
    ("3 doubted, 2 in", &[0, 1, 2, 0]),
    ("loop doubted, 1 in", &[1, 2, 2, 0]),
    ("loop and 1 doubted", &[2, 2, 2, 0]),
    ("1 doubted alone", &[2, 0, 0, 0]),
];

pub fn print_all(rt: &HostRuntime, programs: &Programs) -> io::Result<()> {
    println!(rt; "# refute, over the loop with entry")?;
    for (name, marks) in OVER_LOOP_WITH_ENTRY {
        print_refuted(rt, name, &programs.with_entry, marks)?;
    }
    println!(rt; "# refute, over the loop alone")?;
    for (name, marks) in OVER_LOOP_ALONE {
        print_refuted(rt, name, &programs.alone, marks)?;
    }
    Ok(())
}

pub fn print_refuted(
    rt: &HostRuntime,
    name: &str,
    file: &ProgramFile<'_>,
    marks: &[u8],
) -> io::Result<()> {
    let answer = answer_text(rt.alloc(), refute(file, marks))?;
    println!(rt; "{name}, marks {marks:?}: {answer}")
}
