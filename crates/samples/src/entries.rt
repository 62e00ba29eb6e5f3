// The entries of level tables, made of numbers and written as numbers.
ghost use Rattle.std.specs.Prelude.{◌≡◌, length, IfOk, vec_len};

use levels::order::StoredLevel;
use levels::table::Entry;
use orders::numbers::Number;
use std::alloc::{AllocError, Global};

// An entry for each level that is there or not.
pub fn entries_of(heap: Global, levels: &[Option<u32>]) -> Result<Vec<Entry<Number>>, AllocError>
    ensures len { IfOk result (λ entries. vec_len entries ≡ length levels.now) }
{
    levels
        .iter()
        .map(|level| level.map(|value| Number { value }))
        .collect(heap)
}

// The levels in the entries, as numbers.
pub fn numbers_of<L: StoredLevel + Into<u64>>(
    heap: Global,
    entries: &[Entry<L>],
) -> Result<Vec<Option<u64>>, AllocError>
    ensures len { IfOk result (λ levels. vec_len levels ≡ length entries.now) }
{
    entries
        .iter()
        .map(|entry| entry.map(|level| level.into()))
        .collect(heap)
}
