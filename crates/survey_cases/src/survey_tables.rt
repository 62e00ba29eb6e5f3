// The tables of a case, and what settle leaves in them.
use crate::answers::answer_text;
use levels::order::StoredLevel;
use levels::table::{Entry, LevelTable};
use refutation::refute;
use rules::RuleSource;
use samples::entries::numbers_of;
use settlement::settle;
use std::alloc::{AllocError, Global};
use std::io;
use verdict::judge;

// Tables with more entries are not written whole.
const SHOWN: usize = 67;

// The marks, the levels and the rounds of atoms.
#[derive(Drop)]
pub struct Tables<L> {
    pub marks: Vec<u8>,
    pub entries: Vec<Entry<L>>,
    pub rounds: Vec<u16>,
}

// Settles, and prints the answer, what judge and refute answer then, and the tables.
pub fn print_settled<S: RuleSource, L: StoredLevel + Into<u64>>(
    rt: &HostRuntime,
    name: &str,
    source: &S,
    mut tables: Tables<L>,
) -> io::Result<()> {
    let heap = rt.alloc();
    let mut levels = LevelTable::over(&mut tables.entries);
    let settled = settle(source, &mut tables.marks, &mut levels, &mut tables.rounds);
    let judged = judge(source, &tables.marks, &levels);
    let refuted = refute(source, &tables.marks);
    let settled = answer_text(heap, settled)?;
    let judged = answer_text(heap, judged)?;
    let refuted = answer_text(heap, refuted)?;
    let left = tables_text(heap, &tables)?;
    println!(rt; "{name}: {settled}; then judge: {judged}, refute: {refuted}; {left}")
}

// The tables; of long ones the last entries.
fn tables_text<L: StoredLevel + Into<u64>>(
    heap: Global,
    tables: &Tables<L>,
) -> Result<String, AllocError> {
    let marks = tables.marks.as_slice();
    let levels = numbers_of(heap, &tables.entries)?;
    let rounds = tables.rounds.as_slice();
    if marks.len() > SHOWN {
        let mark = marks.last();
        let level = levels.last();
        let round = rounds.last();
        return format!(in heap; "last mark {mark:?}, last level {level:?}, last round {round:?}");
    }
    format!(in heap; "marks {marks:?}, levels {levels:?}, rounds {rounds:?}")
}
