// The traits of a level order and of levels that are stored in files.
ghost use Rattle.std.specs.Prelude.{◌≡◌, ℕ, ◌-◌, Bool, ◌&&◌, List, ◌++◌, length, replicate, if◌then◌else◌, Some, None, nat_eq, nat_le};
ghost use Rattle.levels.specs.Order.{Order};
ghost use Rattle.levels.specs.Stored.{Stored};

// A level order, with so many rungs.
pub trait Level: Copy + Sized {
    ghost below: { Self → Self → Bool };

    ghost RUNGS: { ℕ };

    ghost rung: { ℕ → Self };

    ghost laws: { Order below RUNGS rung };

    const RUNGS: u32;

    // Is this level below the other?
    fn is_below(self, other: Self) -> bool
        ensures value { result ≡ below self other };

    // Rung k, counted from 1.
    fn rung_at(k: u32) -> Option<Self>
        ensures value { result ≡ (if nat_le 1 k && nat_le k RUNGS then Some (rung k) else None) };

    // The number of rungs.
    final fn rung_count() -> u32
        ensures value { result ≡ RUNGS }
    {
        Self::RUNGS
    }
}

// A level order whose levels are stored in files, under a kind and in a fixed number of bytes.
pub trait StoredLevel: Level {
    ghost WIDTH: { ℕ };

    ghost KIND: { ℕ };

    ghost encode: { Self → List ℕ };

    ghost decode: { List ℕ → Self };

    ghost stored: { Stored WIDTH encode decode };

    const WIDTH: usize;

    const KIND: u16;

    // The level that the bytes hold, where they are as many as the width.
    fn from_bytes(bytes: &[u8]) -> Option<Self>
        ensures value { result ≡ (if nat_eq (length bytes.now) WIDTH then Some (decode bytes.now) else None) };

    // The bytes of the level, and 0 after them.
    fn to_bytes(self) -> [u8; 8]
        ensures value { result ≡ encode self ++ replicate (8 - WIDTH) 0 };

    // The number of bytes of a stored level.
    final fn byte_width() -> usize
        ensures value { result ≡ WIDTH }
    {
        Self::WIDTH
    }

    // The kind under which a certificate has these levels.
    final fn level_kind() -> u16
        ensures value { result ≡ KIND }
    {
        Self::KIND
    }
}
