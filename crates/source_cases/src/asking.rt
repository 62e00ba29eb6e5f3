// What a rule source answers, written by asking it.
use program_file::file::ProgramFile;
use rules::RuleSource;
use rules::part::{Part, atoms_of};
use samples::lines::print_answer;
use std::alloc::{AllocError, Global};
use std::io;

// Of a source with more rules, only their number and the last head are written.
const SHOWN_RULES: u16 = 9;

// The rules of a source, in one line.
pub fn print_rules<S: RuleSource>(rt: &HostRuntime, name: &str, source: &S) -> io::Result<()> {
    let text = source_text(rt.alloc(), source)?;
    println!(rt; "{name}: {text}")
}

// The same for a program file.
pub fn print_rules_in(rt: &HostRuntime, name: &str, bytes: &[u8]) -> io::Result<()> {
    match ProgramFile::read(bytes) {
        Ok(file) => print_rules(rt, name, &file),
        Err(refusal) => print_answer(rt, name, Err(refusal)),
    }
}

// What is answered for rules that are not there, and for the body of a fact.
pub fn print_absent<S: RuleSource>(
    rt: &HostRuntime,
    name: &str,
    source: &S,
    fact: u16,
) -> io::Result<()> {
    let past = source.rules().saturating_add(1);
    let zero = source.head(0);
    let next = source.head(past);
    let last = source.head(65535);
    println!(rt;
        "{name}: head of rule 0 {zero:?}, of rule {past} {next:?}, of rule 65535 {last:?}"
    )?;
    let positive = source.positive(fact, 0);
    let negative = source.negative(fact, 0);
    println!(rt;
        "{name}: first positive atom of rule {fact} {positive:?}, first negative atom {negative:?}"
    )
}

fn source_text<S: RuleSource>(heap: Global, source: &S) -> Result<String, AllocError> {
    let atoms = source.atoms();
    let rules = source.rules();
    if rules > SHOWN_RULES {
        let head = source.head(rules);
        return format!(in heap; "{atoms} atoms, {rules} rules, last head {head:?}");
    }
    let mut text = format!(in heap; "{atoms} atoms:")?;
    for rule in 1..=rules {
        text.push_str(&rule_text(heap, source, rule)?)?;
    }
    Ok(text)
}

// A rule after a space: ` 3 <- 1, not 2.`
fn rule_text<S: RuleSource>(heap: Global, source: &S, rule: u16) -> Result<String, AllocError> {
    let mut body = String::new(heap);
    push_part(heap, &mut body, source, rule, Part::Positive)?;
    push_part(heap, &mut body, source, rule, Part::Negative)?;
    match source.head(rule) {
        Some(0) if body.is_empty() => format!(in heap; " <-."),
        Some(0) => format!(in heap; " <- {body}."),
        Some(head) if body.is_empty() => format!(in heap; " {head}."),
        Some(head) => format!(in heap; " {head} <- {body}."),
        None => format!(in heap; " absent."),
    }
}

// Adds the atoms of a part to what is written of a body.
fn push_part<S: RuleSource>(
    heap: Global,
    body: &mut String,
    source: &S,
    rule: u16,
    part: Part,
) -> Result<(), AllocError> {
    let word = match part {
        Part::Positive => "",
        Part::Negative => "not ",
    };
    for atom in atoms_of(source, rule, part) {
        if !body.is_empty() {
            body.push_str(", ")?;
        }
        body.push_str(&format!(in heap; "{word}{atom}")?)?;
    }
    Ok(())
}
