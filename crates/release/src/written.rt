// Rules as they are written.
use rules::RuleSource;
use rules::part::{Part, atoms_of};
use std::alloc::{AllocError, Global};

// A rule as it is written: its head, which a constraint has not, an arrow, and its body.
pub fn rule_text<S: RuleSource>(heap: Global, source: &S, rule: u16) -> Result<String, AllocError> {
    let body = body_text(heap, source, rule)?;
    let arrow = if body.is_empty() { "<-" } else { "<- " };
    match source.head(rule) {
        Some(head) if head != 0 => format!(in heap; "{head} {arrow}{body}"),
        _ => format!(in heap; "{arrow}{body}"),
    }
}

// The positive atoms of a rule, and then the negative ones.
fn body_text<S: RuleSource>(heap: Global, source: &S, rule: u16) -> Result<String, AllocError> {
    let mut atoms: Vec<String> = Vec::new(heap);
    for atom in atoms_of(source, rule, Part::Positive) {
        atoms.push(format!(in heap; "{atom}")?)?;
    }
    for atom in atoms_of(source, rule, Part::Negative) {
        atoms.push(format!(in heap; "not {atom}")?)?;
    }
    atoms.join(heap, ", ")
}
