// Sets of repeaters as levels, one bit for each of 64: a set is below another that strictly contains it.
ghost use Rattle.std.specs.Prelude.{◌≡◌, ◌-◌, ◌^◌, ◌≤◌};
ghost use Rattle.orders.specs.Routes.{inside, route_rung, route_rungs, route_width, route_kind, route_bytes, route_from};
ghost use Rattle.orders.specs.Laws.{route_laws, route_stored};

use crate::kind::LevelKind;
use levels::order::{Level, StoredLevel};

// A set of repeaters: bit i says whether repeater i is in it.
#[derive(Clone, Copy, PartialEq, Eq)]
pub struct Route {
    pub repeaters: u64,
}

// A set as a number, each repeater by its bit.
impl From<Route> for u64 {
    ghost from_gives = { λ x n. n ≡ x.repeaters };

    fn from(level: Route) -> u64 {
        level.repeaters
    }
}

impl Level for Route {
    ghost below = { inside };

    ghost RUNGS = { route_rungs };

    ghost rung = { route_rung };

    ghost laws = { route_laws };

    const RUNGS: u32 = 65;

    fn is_below(self, other: Route) -> bool {
        self.repeaters & other.repeaters == self.repeaters && self != other
    }

    fn rung_at(k: u32) -> Option<Route> {
        (1..=Self::RUNGS).contains(&k).then(|| Route {
            repeaters: low_bits(k - 1),
        })
    }
}

// The set of the n lowest bits. All 64 have no shift: one by 64 is out of range.
fn low_bits(n: u32) -> u64
    requires { n ≤ 64 }
    ensures value { result ≡ 2 ^ n - 1 }
{
    if n == 64 { u64::MAX } else { (1 << n) - 1 }
}

impl StoredLevel for Route {
    ghost WIDTH = { route_width };

    ghost KIND = { route_kind };

    ghost encode = { route_bytes };

    ghost decode = { route_from };

    ghost stored = { route_stored };

    const WIDTH: usize = 8;

    const KIND: u16 = LevelKind::Routes as u16;

    fn from_bytes(bytes: &[u8]) -> Option<Route> {
        bytes.as_array::<8>().map(|bytes| Route {
            repeaters: u64::from_le_bytes(*bytes),
        })
    }

    fn to_bytes(self) -> [u8; 8] {
        self.repeaters.to_le_bytes()
    }
}
