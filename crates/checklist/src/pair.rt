// Two atoms that rest only on each other, and what judge answers where both are marked.
ghost use Rattle.std.specs.Prelude.{◌≡◌, true, length};
ghost use Rattle.checklist.specs.Pair.{pair};
ghost use Rattle.checklist.specs.Lawful.{pair_lawful};
ghost use Rattle.checklist.specs.Top.{judged_pair, stopped};

use levels::order::Level;
use levels::table::{Entry, LevelTable};
use marks::put_in;
use refusal::Refusal;
use rules::RuleSource;
use verdict::{Verdict, judge};

// The rules 1 <- 2 and 2 <- 1, and no others.
#[derive(Clone, Copy)]
struct Pair;

impl RuleSource for Pair {
    ghost meaning = { λ _. pair };

    ghost lawful = { λ _. pair_lawful };

    fn atoms(&self) -> u16 {
        2
    }

    fn rules(&self) -> u16 {
        2
    }

    fn head(&self, rule: u16) -> Option<u16> {
        match rule {
            1 | 2 => Some(rule),
            _ => None,
        }
    }

    fn positive(&self, rule: u16, position: u16) -> Option<u16> {
        match (rule, position) {
            (1, 0) => Some(2),
            (2, 0) => Some(1),
            _ => None,
        }
    }

    fn negative(&self, _rule: u16, _position: u16) -> Option<u16> {
        None
    }
}

// Does judge stop the pair as ungrounded, at these levels?
pub(crate) fn is_stopped<L: Level>(entries: &mut [Entry<L>], first: L, second: L) -> bool
    requires pair { length entries.old ≡ 2 }
    ensures value { result ≡ stopped L.below first second }
    ensures always { result ≡ true }
{
    matches!(
        judge_pair(entries, first, second),
        Ok(Verdict::Ungrounded(_))
    )
}

// What judge answers for the pair, with both atoms marked and these levels, in entries that the caller lends.
fn judge_pair<L: Level>(entries: &mut [Entry<L>], first: L, second: L) -> Result<Verdict, Refusal>
    requires pair { length entries.old ≡ 2 }
    ensures value { result ≡ judged_pair L.below first second }
{
    let mut marks = [0; 2];
    put_in(&mut marks, 1);
    put_in(&mut marks, 2);
    let mut levels = LevelTable::over(entries);
    levels.put(1, first);
    levels.put(2, second);
    judge(&Pair, &marks, &levels)
}
