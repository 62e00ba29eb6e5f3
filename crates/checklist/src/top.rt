// The top of the levels: whether judge stops the pair there.
ghost use Rattle.std.specs.Prelude.{◌≡◌, true, length};
ghost use Rattle.checklist.specs.Top.{stopped_at_rungs, stopped_at_top, stopped_with_zero, stopped_in};

use crate::pair::is_stopped;
use levels::order::Level;
use levels::table::Entry;
use orders::kind::LevelKind;
use orders::numbers::Number;
use orders::routes::Route;

// Is the pair stopped wherever it is tried in the levels of a kind?
pub fn is_stopped_in(kind: LevelKind) -> bool
    ensures value { result ≡ stopped_in kind }
    ensures always { result ≡ true }
{
    // an arm for each kind, since it was not proved that an array of entries of any level type fits in memory
    match kind {
        LevelKind::Numbers => {
            let mut entries: [Entry<Number>; 2] = [None; 2];
            is_stopped_at_top(&mut entries) && is_stopped_with_zero(&mut entries)
        }
        LevelKind::Routes => {
            let mut entries: [Entry<Route>; 2] = [None; 2];
            is_stopped_at_top(&mut entries)
        }
    }
}

// Is the pair stopped at the top rung, at the rung before it and the top, and at the top and the lowest rung?
fn is_stopped_at_top<L: Level>(entries: &mut [Entry<L>]) -> bool
    requires pair { length entries.old ≡ 2 }
    ensures value { result ≡ stopped_at_top L.below L.RUNGS L.rung }
{
    let top = L::rung_count();
    is_stopped_at_rungs(entries, top, top)
        && is_stopped_at_rungs(entries, top.saturating_sub(1), top)
        && is_stopped_at_rungs(entries, top, 1)
}

// Is the pair stopped at these rungs, where the order has both?
fn is_stopped_at_rungs<L: Level>(entries: &mut [Entry<L>], first: u32, second: u32) -> bool
    requires pair { length entries.old ≡ 2 }
    ensures value { result ≡ stopped_at_rungs L.below L.RUNGS L.rung first second }
{
    match (L::rung_at(first), L::rung_at(second)) {
        (Some(first), Some(second)) => is_stopped(entries, first, second),
        _ => true,
    }
}

// Is the pair stopped with the number 0, which is a level and no rung, and the greatest number?
fn is_stopped_with_zero(entries: &mut [Entry<Number>]) -> bool
    requires pair { length entries.old ≡ 2 }
    ensures value { result ≡ stopped_with_zero }
{
    let lowest = Number { value: 0 };
    let greatest = Number { value: u32::MAX };
    is_stopped(entries, lowest, greatest) && is_stopped(entries, greatest, lowest)
}
