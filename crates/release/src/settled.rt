// What settle makes of marked atoms whose levels do not pass: a loop, or levels that do.
use crate::written::rule_text;
use levels::order::Level;
use levels::table::LevelTable;
use marks::{is_doubted, is_marked};
use refutation::{Refutation, refute};
use rules::RuleSource;
use settlement::{Settlement, settle};
use std::io;
use support::MarkedSet;
use verdict::{Verdict, judge};

// The loop that is left over, or the levels that pass.
pub fn print_all<S: RuleSource, L: Level + Into<u64>>(
    rt: &HostRuntime,
    source: &S,
    marks: &mut [u8],
    levels: &mut LevelTable<L>,
) -> io::Result<()> {
    let mut rounds = vec![in rt.alloc(); 0u16; usize::from(source.atoms())]?;
    match settle(source, marks, levels, &mut rounds) {
        Ok(Settlement::Looped(count)) => print_loop(rt, source, marks, count),
        Ok(Settlement::Ranked(_)) => print_ranking(rt, source, marks, levels),
        Ok(broken) => println!(rt; "ranking: {broken}"),
        Err(refusal) => println!(rt; "ranking: {refusal}"),
    }
}

// The doubted atoms with the rules that support them, and whether refute accepts the doubt.
fn print_loop<S: RuleSource>(
    rt: &HostRuntime,
    source: &S,
    marks: &[u8],
    count: usize,
) -> io::Result<()> {
    println!(rt; "loop: {count} marked atoms that nothing outside them supports")?;
    let set = MarkedSet { source, marks };
    for atom in 1..=source.atoms() {
        if is_doubted(marks, atom) {
            print_supports(rt, &set, atom)?;
        }
    }
    match refute(source, marks) {
        Ok(Refutation::Accepted(_)) => println!(rt; "loop: checked, no stable set"),
        Ok(other) => println!(rt; "loop: {other}"),
        Err(refusal) => println!(rt; "loop: {refusal}"),
    }
}

// Each rule that supports an atom, or that none does.
fn print_supports<S: RuleSource>(
    rt: &HostRuntime,
    set: &MarkedSet<S>,
    atom: u16,
) -> io::Result<()> {
    let mut is_supported = false;
    for rule in 1..=set.source.rules() {
        if set.supports(atom, rule) {
            let text = rule_text(rt.alloc(), set.source, rule)?;
            println!(rt; "loop: atom {atom} by rule {rule}: {text}")?;
            is_supported = true;
        }
    }
    if !is_supported {
        println!(rt; "loop: atom {atom} by no rule")?;
    }
    Ok(())
}

// The new levels of the marked atoms, and what judge answers for them.
fn print_ranking<S: RuleSource, L: Level + Into<u64>>(
    rt: &HostRuntime,
    source: &S,
    marks: &[u8],
    levels: &LevelTable<L>,
) -> io::Result<()> {
    println!(rt;
        "ranking: the marked atoms are a stable set, only their levels are unfit; these pass:"
    )?;
    for atom in 1..=source.atoms() {
        if is_marked(marks, atom) {
            print_level(rt, atom, levels.level(atom))?;
        }
    }
    match judge(source, marks, levels) {
        Ok(Verdict::Accepted(count)) => println!(rt; "ranking: checked, accepted {count}"),
        Ok(other) => println!(rt; "ranking: {other}"),
        Err(refusal) => println!(rt; "ranking: {refusal}"),
    }
}

// The level of an atom, as a number.
fn print_level<L: Level + Into<u64>>(
    rt: &HostRuntime,
    atom: u16,
    level: Option<L>,
) -> io::Result<()> {
    let Some(level) = level else {
        return println!(rt; "ranking: atom {atom} without a level");
    };
    let number: u64 = level.into();
    println!(rt; "ranking: atom {atom} level {number}")
}
