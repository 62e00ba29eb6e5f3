// Numbers of 32 bits as levels, ordered by size.
ghost use Rattle.std.specs.Prelude.{◌≡◌};
ghost use Rattle.orders.specs.Numbers.{less, number, number_rungs, number_width, number_kind, number_bytes, number_from};
ghost use Rattle.orders.specs.Laws.{number_laws, number_stored};

use crate::kind::LevelKind;
use levels::order::{Level, StoredLevel};

// A level that is a number; a larger number is a higher level.
#[derive(Clone, Copy, PartialEq, Eq, PartialOrd, Ord)]
pub struct Number {
    pub value: u32,
}

// A level as a number of 64 bits.
impl From<Number> for u64 {
    ghost from_gives = { λ x n. n ≡ x.value };

    fn from(level: Number) -> u64 {
        u64::from(level.value)
    }
}

impl Level for Number {
    ghost below = { less };

    ghost RUNGS = { number_rungs };

    ghost rung = { number };

    ghost laws = { number_laws };

    const RUNGS: u32 = 4_294_967_295;

    fn is_below(self, other: Number) -> bool {
        self < other
    }

    fn rung_at(k: u32) -> Option<Number> {
        (1..=Self::RUNGS).contains(&k).then(|| Number { value: k })
    }
}

impl StoredLevel for Number {
    ghost WIDTH = { number_width };

    ghost KIND = { number_kind };

    ghost encode = { number_bytes };

    ghost decode = { number_from };

    ghost stored = { number_stored };

    const WIDTH: usize = 4;

    const KIND: u16 = LevelKind::Numbers as u16;

    fn from_bytes(bytes: &[u8]) -> Option<Number> {
        bytes.as_array::<4>().map(|bytes| Number {
            value: u32::from_le_bytes(*bytes),
        })
    }

    fn to_bytes(self) -> [u8; 8] {
        let [a, b, c, d] = self.value.to_le_bytes();
        [a, b, c, d, 0, 0, 0, 0]
    }
}
