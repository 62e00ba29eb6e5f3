// Lists of items, each of which waits under at most one key until it is taken.
#![tactic(auto)]

ghost use Rattle.std.specs.Prelude.{◌≡◌, length};
ghost use Rattle.waiting.specs.Linked.{Linked};

// Keys are 1 to KEYS.
pub const KEYS: u16 = 4097;

const KEY_PLACES: usize = KEYS as usize + 1;

// Items are the numbers from 1 on that are below PLACES: each has a place.
// For each key the first item that waits under it; for each item the next one under the same key, and that key; 0 for none.
#[derive(Drop)]
pub struct WaitingLists<const PLACES: usize> {
    first: [u16; KEY_PLACES],
    next: [u16; PLACES],
    keys: [u16; PLACES],
    ghost first_sized: { length first ≡ 4098 },
    ghost next_sized: { length next ≡ PLACES },
    ghost keys_sized: { length keys ≡ PLACES },
    ghost linked: { ∥ Linked PLACES first next keys ∥₁ },
}

impl<const PLACES: usize> WaitingLists<PLACES> {
    ghost use Rattle.std.specs.Prelude.{◌≤◌, ℕ, Some, None};
    ghost use Rattle.waiting.specs.Waiting.{key_of, free, key_added, key_without, Held, first_under, any_under};

    // Lists in which nothing waits.
    pub fn new() -> Self
        ensures none { (item : ℕ) → key_of result item ≡ 0 }
    {
        WaitingLists {
            first: [0; KEY_PLACES],
            next: [0; PLACES],
            keys: [0; PLACES],
        }
    }

    // Lets an item wait under a key; an item that waits already, and an item or a key without a place, is passed over.
    pub fn add(&mut self, item: u16, key: u16)
        ensures after { (other : ℕ) → key_of self.new other ≡ key_added PLACES (key_of self.old) item key other }
    {
        if self.is_free(item, key) {
            let place = usize::from(item);
            self.next[place] = self.first[usize::from(key)];
            self.first[usize::from(key)] = item;
            self.keys[place] = key;
        }
    }

    // Takes an item that waits under the key, where one does; which of them is open.
    pub fn take(&mut self, key: u16) -> Option<u16>
        ensures held { (item : ℕ) → result ≡ Some item → Held self.old item key }
        ensures none { result ≡ None → 1 ≤ key → (item : ℕ) → key_of self.old item ≡ key → ⊥ }
        ensures after { (other : ℕ) → key_of self.new other ≡ key_without (key_of self.old) result other }
    {
        let item = self.first_under(key)?;
        let place = usize::from(item);
        self.first[usize::from(key)] = self.next[place];
        self.keys[place] = 0;
        Some(item)
    }

    // Does some item wait under the key?
    pub fn has(&self, key: u16) -> bool
        ensures value { result ≡ any_under PLACES (key_of self.now) key }
    {
        self.first_under(key).is_some()
    }

    // Can the item be made to wait under the key: is there a place for both, and does it wait nowhere yet?
    fn is_free(&self, item: u16, key: u16) -> bool
        ensures value { result ≡ free PLACES (key_of self.now) item key }
    {
        (1..PLACES).contains(&usize::from(item))
            && (1..=KEYS).contains(&key)
            && self.keys[usize::from(item)] == 0
    }

    // The first item that waits under the key, where one does.
    fn first_under(&self, key: u16) -> Option<u16>
        ensures value { result ≡ first_under self.now key }
    {
        if !(1..=KEYS).contains(&key) {
            return None;
        }
        let item = self.first[usize::from(key)];
        (item != 0).then_some(item)
    }
}
