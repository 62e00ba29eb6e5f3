// Cases for inputs, and for layers of inputs.
use crate::asking::{print_absent, print_rules};
use crate::repeated::Repeated;
use crate::writing::{print_output, written};
use console::answer::answer_over;
use inputs::Inputs;
use program_file::file::ProgramFile;
use refusal::Refusal;
use rules::RuleSource;
use samples::bytes::{FileBytes, Order, Records};
use samples::lines::{ClaimCase, SMALL_PROGRAM, print_answer, print_done};
use std::io;

// A name, how often the fact is repeated, how many atoms are put, and what is put then.
type FilledCase = (&'static str, u16, u16, &'static [u16]);

// 3 from 1 unless 2, and a constraint: not 3 unless 1.
pub const BOTH_PARTS: Records = &[
    &[4, 1, 3, 2],
    &[8, 2, 3, 1, 1, 2],
    &[8, 2, 0, 1, 3, 1],
    &[0, 3],
];

// A name, a program, and what is put over it.
const OVER: &[(&str, Records, &[u16])] = &[
    ("both parts", BOTH_PARTS, &[1]),
    (
        "empty constraint",
        &[&[4, 1, 0, 1], &[4, 2, 0, 0], &[0, 3]],
        &[0, 1],
    ),
    ("no rules", &[&[4, 1, 4096, 0], &[0, 3]], &[4096, 4097]),
];

const FILLED: &[FilledCase] = &[
    ("10 rules, 64 inputs", 10, 64, &[65, 64, 1, 0, 101]),
    ("16384 rules, 0 inputs", 16384, 0, &[5, 0, 101]),
    ("16383 rules, 0 inputs", 16383, 0, &[5, 6, 5]),
    ("16320 rules, 64 inputs", 16320, 64, &[65, 64]),
    ("16321 rules, 63 inputs", 16321, 63, &[64, 63]),
];

// What is claimed of the atoms 1 and 2.
const CERTIFICATES: &[ClaimCase] = &[
    ("1 at 1", &[(1, Some(1))]),
    ("2 at 1", &[(2, Some(1))]),
    ("1 at 1, 2 at 2", &[(1, Some(1)), (2, Some(2))]),
    ("2 without a level", &[(2, None)]),
];

pub fn print_all(rt: &HostRuntime) -> io::Result<()> {
    print_over(rt, "1 unless 2", SMALL_PROGRAM, &[2, 2, 1, 0, 3, 65535])?;
    for (name, records, atoms) in OVER {
        let program = FileBytes::of_records(rt.alloc(), records)?;
        print_over(rt, name, program.as_slice(), atoms)?;
    }
    print_rules(rt, "fact 65535 times", &Repeated { rules: 65535 })?;
    print_absent(rt, "fact 3 times", &Repeated { rules: 3 }, 3)?;
    for (name, rules, many, last) in FILLED {
        print_filled(rt, name, Repeated { rules: *rules }, *many, last)?;
    }
    match ProgramFile::read(SMALL_PROGRAM) {
        Ok(file) => {
            print_layers(rt, file)?;
            print_verdicts(rt, file)
        }
        Err(refusal) => print_answer(rt, "small program", Err(refusal)),
    }
}

// A layer over a program file, without inputs and after each atom that is put.
fn print_over(rt: &HostRuntime, name: &str, program: &[u8], atoms: &[u16]) -> io::Result<()> {
    match ProgramFile::read(program) {
        Ok(file) => {
            let mut layer = Inputs::over(file);
            print_rules(rt, name, &layer)?;
            print_puts(rt, name, &mut layer, atoms)?;
            let last = layer.rules();
            print_absent(rt, name, &layer, last)
        }
        Err(refusal) => print_answer(rt, name, Err(refusal)),
    }
}

// Puts atoms, and prints the answer and the rules after each.
fn print_puts<S: RuleSource>(
    rt: &HostRuntime,
    name: &str,
    layer: &mut Inputs<S>,
    atoms: &[u16],
) -> io::Result<()> {
    for atom in atoms {
        let step = format!(in rt.alloc(); "{name}, put {atom}")?;
        print_done(rt, &step, "accepted", layer.put(*atom))?;
        print_rules(rt, &step, layer)?;
    }
    Ok(())
}

// Puts the first atoms, then others, then one in a layer above.
fn print_filled(
    rt: &HostRuntime,
    name: &str,
    below: Repeated,
    many: u16,
    last: &[u16],
) -> io::Result<()> {
    let mut layer = Inputs::over(below);
    print_done(rt, name, "accepted", put_first(&mut layer, many))?;
    print_rules(rt, name, &layer)?;
    print_puts(rt, name, &mut layer, last)?;
    let above = format!(in rt.alloc(); "{name}, layer above")?;
    print_puts(rt, &above, &mut Inputs::over(layer), &[1])
}

// Puts the first atoms in their order, until one is refused.
pub fn put_first<S: RuleSource>(layer: &mut Inputs<S>, many: u16) -> Result<(), Refusal> {
    for atom in 1..=many {
        layer.put(atom)?;
    }
    Ok(())
}

// Three layers over 1 unless 2: what the one below has is put again above it.
fn print_layers(rt: &HostRuntime, file: ProgramFile<'_>) -> io::Result<()> {
    let mut lowest = Inputs::over(file);
    print_puts(rt, "lowest layer", &mut lowest, &[2])?;
    let mut middle = Inputs::over(lowest);
    print_rules(rt, "middle layer", &middle)?;
    print_puts(rt, "middle layer", &mut middle, &[2, 2, 1])?;
    let mut top = Inputs::over(middle);
    print_rules(rt, "top layer", &top)?;
    print_puts(rt, "top layer", &mut top, &[1, 2, 1, 3])?;
    print_absent(rt, "top layer", &top, 6)?;
    print_output(rt, "top layer", &written(rt.alloc(), &top, 65000)?)
}

// Certificates over 1 unless 2, without an input and with the input 2.
fn print_verdicts(rt: &HostRuntime, file: ProgramFile<'_>) -> io::Result<()> {
    let mut layer = Inputs::over(file);
    print_judged(rt, "no input", &layer)?;
    print_puts(rt, "1 unless 2", &mut layer, &[2])?;
    print_judged(rt, "input 2", &layer)
}

// A line for each certificate that is judged over a source.
fn print_judged<S: RuleSource>(rt: &HostRuntime, name: &str, source: &S) -> io::Result<()> {
    for (what, claims) in CERTIFICATES {
        let certificate = FileBytes::of_claims(rt.alloc(), 2, Order::Numbers, claims)?;
        let line = format!(in rt.alloc(); "{name}, {what}")?;
        print_answer(rt, &line, answer_over(source, certificate.as_slice()))?;
    }
    Ok(())
}
