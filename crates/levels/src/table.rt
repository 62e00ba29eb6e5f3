// The level table: a level or none for each atom, over entries that the caller lends.
ghost use Rattle.std.specs.Prelude.{◌≡◌, length, replicate};
ghost use Rattle.levels.specs.Table.{level_of, with_level};

use tables::{entry, put_entry};

// What the table holds for an atom: no level, or one.
pub type Entry<L> = Option<L>;

// The entries of the atoms 1, 2, .. in turn.
#[derive(Drop)]
pub struct LevelTable<'a, L> {
    entries: &'a mut [Entry<L>],
}

impl<'a, L: Copy> LevelTable<'a, L> {
    // A table over the caller's entries.
    pub fn over(entries: &'a mut [Entry<L>]) -> LevelTable<'a, L>
        ensures value { result.entries.now ≡ entries.old }
        ensures named { result.entries.ghost_name ≡ entries.entry.ghost_name }
    {
        LevelTable { entries }
    }

    // How many entries there are.
    pub fn len(&self) -> usize
        ensures value { result ≡ length self.now.entries.now }
    {
        self.entries.len()
    }

    // The level of an atom, where it has one.
    pub fn level(&self, atom: u16) -> Option<L>
        ensures value { result ≡ level_of self.now.entries.now atom }
    {
        entry(self.entries, atom).flatten()
    }

    // Empties every entry.
    pub fn clear(&mut self)
        ensures after { self.new.entries.now ≡ replicate (length self.old.entries.now) None }
        ensures named { self.new.entries.ghost_name ≡ self.old.entries.ghost_name }
    {
        self.entries.fill(None);
    }

    // Gives an atom a level; an atom without an entry is passed over.
    pub fn put(&mut self, atom: u16, level: L)
        ensures after { self.new.entries.now ≡ with_level self.old.entries.now atom level }
        ensures named { self.new.entries.ghost_name ≡ self.old.entries.ghost_name }
    {
        put_entry(self.entries, atom, Some(level));
    }
}
