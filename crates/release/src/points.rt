// The points of the list: both files, the rules, the levels, and the top of the levels.
use crate::settled;
use crate::written::rule_text;
use checklist::{Findings, look};
use levels::order::StoredLevel;
use levels::table::{Entry, LevelTable};
use marks::count_marked;
use orders::kind::LevelKind;
use orders::numbers::Number;
use orders::routes::Route;
use program_file::file::ProgramFile;
use rules::RuleSource;
use std::io;
use survey::making::make_from;
use verdict::Verdict;

// A line for each point that the plan comes to.
pub fn print_all(rt: &HostRuntime, program: &[u8], certificate: &[u8]) -> io::Result<()> {
    let file = match ProgramFile::read(program) {
        Ok(file) => file,
        Err(refusal) => return println!(rt; "file: {refusal}"),
    };
    print_file(rt, program.len(), &file)?;
    let findings = match look(program, certificate) {
        Ok(findings) => findings,
        Err(refusal) => return println!(rt; "certificate: {refusal}"),
    };
    match findings.kind {
        LevelKind::Numbers => print_judged::<_, Number>(rt, &file, certificate, findings),
        LevelKind::Routes => print_judged::<_, Route>(rt, &file, certificate, findings),
    }
}

// How large the program file is, and how many atoms and rules it has.
fn print_file<S: RuleSource>(rt: &HostRuntime, bytes: usize, source: &S) -> io::Result<()> {
    let atoms = source.atoms();
    let rules = source.rules();
    println!(rt; "file: {bytes} bytes, {atoms} atoms, {rules} rules")
}

// The points of a plan whose files are lawful, over the survey that they make.
fn print_judged<S: RuleSource, L: StoredLevel + Into<u64>>(
    rt: &HostRuntime,
    source: &S,
    certificate: &[u8],
    findings: Findings,
) -> io::Result<()> {
    let n = usize::from(source.atoms());
    let mut marks = vec![in rt.alloc(); 0u8; n]?;
    let mut entries: Vec<Entry<L>> = vec![in rt.alloc(); None; n]?;
    let mut levels = LevelTable::over(&mut entries);
    make_from(source, &mut marks, &mut levels, certificate);
    let bytes = certificate.len();
    let marked = count_marked(&marks);
    let kind = findings.kind as u16;
    println!(rt; "certificate: {bytes} bytes, {marked} marked atoms, levels of kind {kind}")?;
    print_rules(rt, source, findings.verdict)?;
    print_levels(rt, findings.verdict)?;
    print_top(rt, findings.top_is_stopped)?;
    match findings.verdict {
        Verdict::Unlevelled(_) | Verdict::Ungrounded(_) => {
            settled::print_all(rt, source, &mut marks, &mut levels)
        }
        Verdict::Broken(_) | Verdict::Accepted(_) => Ok(()),
    }
}

// Whether a rule is broken, and which one.
fn print_rules<S: RuleSource>(rt: &HostRuntime, source: &S, verdict: Verdict) -> io::Result<()> {
    let Verdict::Broken(rule) = verdict else {
        return println!(rt; "rules: none is broken");
    };
    let text = rule_text(rt.alloc(), source, rule)?;
    println!(rt; "rules: rule {rule} is broken: {text}")
}

// Whether the levels pass, and where not.
fn print_levels(rt: &HostRuntime, verdict: Verdict) -> io::Result<()> {
    match verdict {
        Verdict::Broken(_) => println!(rt; "levels: not looked at"),
        Verdict::Unlevelled(atom) => println!(rt; "levels: atom {atom} has no level"),
        Verdict::Ungrounded(atom) => {
            println!(rt; "levels: atom {atom} does not rest on atoms of lower levels")
        }
        Verdict::Accepted(_) => {
            println!(rt; "levels: each marked atom rests on atoms of lower levels")
        }
    }
}

// Whether a loop at the top of the levels is stopped.
fn print_top(rt: &HostRuntime, is_stopped: bool) -> io::Result<()> {
    if is_stopped {
        return println!(rt; "top of the levels: a loop there is stopped");
    }
    println!(rt; "top of the levels: a loop there passed")
}
