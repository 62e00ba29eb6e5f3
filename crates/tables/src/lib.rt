// Tables with one entry for each of the atoms 1, 2, .. in turn, over entries that the caller lends.
#![tactic(auto)]

ghost use Rattle.std.specs.Prelude.{◌≡◌};
ghost use Rattle.tables.specs.Entries.{entry_of, with_put};

// The entry of an atom, where it has one.
pub fn entry<T: Copy>(entries: &[T], atom: u16) -> Option<T>
    ensures value { result ≡ entry_of entries.now atom }
{
    let place = usize::from(atom).checked_sub(1)?;
    entries.get(place).copied()
}

// Gives an atom an entry; an atom without one is passed over.
// Written by its place: of a slice's `get_mut` no proof knows which element is changed.
pub fn put_entry<T: Copy>(entries: &mut [T], atom: u16, entry: T)
    ensures after { entries.new ≡ with_put entries.old atom entry }
{
    let at = usize::from(atom);
    if at >= 1 && at <= entries.len() {
        entries[at - 1] = entry;
    }
}
