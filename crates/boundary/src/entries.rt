// How the entries of a level table cross to C, and which number stands for a level.
ghost use Rattle.std.specs.Prelude.{◌≡◌, ℕ, length, map};
ghost use Rattle.boundary.specs.Entries.{number_for, number_told, route_for, route_told, entry_for, stored_for};

use levels::order::StoredLevel;
use levels::table::Entry;
use orders::numbers::Number;
use orders::routes::Route;

// How many number levels there are.
const NUMBERS: u64 = 4_294_967_296;

// An entry of a level table: whether it holds a level, and the number that stands for it.
#[repr(C)]
#[derive(Clone, Copy)]
pub struct Stored {
    pub present: bool,
    pub level: u64,
}

// Levels that a number stands for.
pub(crate) trait Crossing: StoredLevel {
    ghost of_number: { ℕ → Self };

    ghost number_of: { Self → ℕ };

    // The level that the number stands for.
    fn from_number(number: u64) -> Self
        ensures value { result ≡ of_number number };

    // The number that stands for the level.
    fn to_number(self) -> u64
        ensures value { result ≡ number_of self };
}

impl Crossing for Number {
    ghost of_number = { number_for };

    ghost number_of = { number_told };

    fn from_number(number: u64) -> Number {
        Number {
            value: (number % NUMBERS) as u32,
        }
    }

    fn to_number(self) -> u64 {
        u64::from(self.value)
    }
}

impl Crossing for Route {
    ghost of_number = { route_for };

    ghost number_of = { route_told };

    fn from_number(number: u64) -> Route {
        Route { repeaters: number }
    }

    fn to_number(self) -> u64 {
        self.repeaters
    }
}

// The entry that crosses.
fn entry_for<L: Crossing>(stored: Stored) -> Entry<L>
    ensures value { result ≡ entry_for L.of_number stored }
{
    if stored.present {
        Some(L::from_number(stored.level))
    } else {
        None
    }
}

// How an entry crosses.
fn stored_for<L: Crossing>(entry: Entry<L>) -> Stored
    ensures value { result ≡ stored_for L.number_of entry }
{
    match entry {
        Some(level) => Stored {
            present: true,
            level: level.to_number(),
        },
        None => Stored {
            present: false,
            level: 0,
        },
    }
}

// Takes over the entries that cross.
pub(crate) fn take_entries<L: Crossing>(entries: &mut [Entry<L>], stored: &[Stored])
    requires sized { length entries.old ≡ length stored.now }
    ensures after { entries.new ≡ map (entry_for L.of_number) stored.now }
{
    'entries: for at in 0..stored.len() {
        entries[at] = entry_for(stored[at]);
    }
}

// Hands back how the entries are afterwards.
pub(crate) fn tell_entries<L: Crossing>(entries: &[Entry<L>], stored: &mut [Stored])
    requires sized { length entries.now ≡ length stored.old }
    ensures after { stored.new ≡ map (stored_for L.number_of) entries.now }
{
    'entries: for at in 0..entries.len() {
        stored[at] = stored_for(entries[at]);
    }
}
