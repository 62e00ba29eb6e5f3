// Cases for judge, over lawful files.
use console::answer::answer;
use samples::bytes::{FileBytes, Order, Records};
use samples::lines::{Tried, print_tried};
use samples::programs::{LOOP_ALONE, LOOP_WITH_ENTRY};
use std::alloc::{AllocError, Global};
use std::io;
use verdict::Verdict;

// 1, and 2 from 1.
const CHAIN: Records = &[&[4, 1, 2, 2], &[4, 2, 1, 0], &[6, 2, 2, 1, 1], &[0, 3]];

// 1, and 2.
const TWO_FACTS: Records = &[&[4, 1, 2, 2], &[4, 2, 1, 0], &[4, 2, 2, 0], &[0, 3]];

// 1 from 2.
pub const NO_FACT: Records = &[&[4, 1, 2, 1], &[6, 2, 1, 1, 2], &[0, 3]];

// 1, and never 1 without 2.
const CONSTRAINED: Records = &[&[4, 1, 2, 2], &[4, 2, 1, 0], &[8, 2, 0, 1, 1, 2], &[0, 3]];

// The highest number, the set of all repeaters, and that of all but one.
const TOP: u64 = 4_294_967_295;

const ALL: u64 = 18_446_744_073_709_551_615;

const ALL_BUT_ONE: u64 = 18_446_744_073_709_551_614;

const OVER_NUMBERS: &[Tried] = &[
    Tried {
        n: 4,
        program: LOOP_WITH_ENTRY,
        order: Order::Numbers,
        certificates: &[
            (
                "loop with entry, at 1, 2, 3",
                &[(1, Some(1)), (2, Some(2)), (3, Some(3))],
            ),
            (
                "loop with entry, at 1, 2, 2",
                &[(1, Some(1)), (2, Some(2)), (3, Some(2))],
            ),
            ("loop with entry, 1 at 1", &[(1, Some(1))]),
            ("loop with entry, 1 without a level", &[(1, None)]),
            ("loop with entry, nothing claimed", &[]),
            (
                "loop with entry, at 1, 2, 3, 4",
                &[(1, Some(1)), (2, Some(2)), (3, Some(3)), (4, Some(4))],
            ),
            (
                "loop with entry, at 1, 1, none",
                &[(1, Some(1)), (2, Some(1)), (3, None)],
            ),
        ],
    },
    Tried {
        n: 4,
        program: LOOP_ALONE,
        order: Order::Numbers,
        certificates: &[
            ("loop alone, nothing claimed", &[]),
            (
                "loop alone, at 5 and the top",
                &[(2, Some(5)), (3, Some(TOP))],
            ),
            ("loop alone, without levels", &[(2, None), (3, None)]),
            (
                "loop alone, both at the top",
                &[(2, Some(TOP)), (3, Some(TOP))],
            ),
            (
                "loop alone, at the top and 0",
                &[(2, Some(TOP)), (3, Some(0))],
            ),
            (
                "loop alone, at 0 and the top",
                &[(2, Some(0)), (3, Some(TOP))],
            ),
        ],
    },
    Tried {
        n: 2,
        program: CHAIN,
        order: Order::Numbers,
        certificates: &[
            (
                "chain, below the top and at the top",
                &[(1, Some(TOP - 1)), (2, Some(TOP))],
            ),
            ("chain, both at the top", &[(1, Some(TOP)), (2, Some(TOP))]),
            ("chain, both at 0", &[(1, Some(0)), (2, Some(0))]),
        ],
    },
    Tried {
        n: 2,
        program: TWO_FACTS,
        order: Order::Numbers,
        certificates: &[
            ("two facts, both at 0", &[(1, Some(0)), (2, Some(0))]),
            ("two facts, 2 without a level", &[(1, Some(1)), (2, None)]),
            ("two facts, 1 without a level", &[(1, None), (2, Some(1))]),
        ],
    },
    Tried {
        n: 2,
        program: NO_FACT,
        order: Order::Numbers,
        certificates: &[
            ("1 from 2, 1 at 5", &[(1, Some(5))]),
            ("1 from 2, 2 at 5", &[(2, Some(5))]),
        ],
    },
    Tried {
        n: 2,
        program: CONSTRAINED,
        order: Order::Numbers,
        certificates: &[
            ("constraint, 1 at 1", &[(1, Some(1))]),
            ("constraint, at 1, 2", &[(1, Some(1)), (2, Some(2))]),
        ],
    },
];

const OVER_ROUTES: &[Tried] = &[
    Tried {
        n: 4,
        program: LOOP_WITH_ENTRY,
        order: Order::Routes,
        certificates: &[
            (
                "loop with entry, by 0, 1, 2",
                &[(1, Some(0)), (2, Some(1)), (3, Some(2))],
            ),
            (
                "loop with entry, by 0, 1, 3",
                &[(1, Some(0)), (2, Some(1)), (3, Some(3))],
            ),
            (
                "loop with entry, by 2, 1, 3",
                &[(1, Some(2)), (2, Some(1)), (3, Some(3))],
            ),
            ("loop with entry, 1 by 1", &[(1, Some(1))]),
        ],
    },
    Tried {
        n: 4,
        program: LOOP_ALONE,
        order: Order::Routes,
        certificates: &[
            ("loop alone, without routes", &[(2, None), (3, None)]),
            ("loop alone, both by all", &[(2, Some(ALL)), (3, Some(ALL))]),
            (
                "loop alone, by all and all but one",
                &[(2, Some(ALL)), (3, Some(ALL_BUT_ONE))],
            ),
            (
                "loop alone, by all but one and all",
                &[(2, Some(ALL_BUT_ONE)), (3, Some(ALL))],
            ),
        ],
    },
    Tried {
        n: 2,
        program: CHAIN,
        order: Order::Routes,
        certificates: &[
            (
                "chain, by all but one and all",
                &[(1, Some(ALL_BUT_ONE)), (2, Some(ALL))],
            ),
            (
                "chain, by all and all but one",
                &[(1, Some(ALL)), (2, Some(ALL_BUT_ONE))],
            ),
        ],
    },
    Tried {
        n: 2,
        program: TWO_FACTS,
        order: Order::Routes,
        certificates: &[("two facts, 1 without a route", &[(1, None), (2, Some(ALL))])],
    },
    Tried {
        n: 2,
        program: NO_FACT,
        order: Order::Routes,
        certificates: &[("1 from 2, 1 by all", &[(1, Some(ALL))])],
    },
    Tried {
        n: 2,
        program: CONSTRAINED,
        order: Order::Routes,
        certificates: &[("constraint, 1 by 0", &[(1, Some(0))])],
    },
];

pub fn print_all(rt: &HostRuntime) -> io::Result<()> {
    for tried in OVER_NUMBERS {
        print_tried(rt, tried)?;
    }
    for tried in OVER_ROUTES {
        print_tried(rt, tried)?;
    }
    print_accepted(rt, "loop alone, pairs of numbers", Order::Numbers)?;
    print_accepted(rt, "loop alone, pairs of routes", Order::Routes)
}

// How many pairs of levels below 8, for 2 and 3, are accepted.
fn print_accepted(rt: &HostRuntime, name: &str, order: Order) -> io::Result<()> {
    // counted by hand: a case may fail for want of memory, and `try_fold`, which passes that on, wraps the count in each turn
    let mut accepted = 0u32;
    for pair in 0..64u64 {
        if is_accepted(rt.alloc(), order, pair / 8, pair % 8)? {
            accepted = accepted.saturating_add(1);
        }
    }
    println!(rt; "{name}: {accepted} accepted")
}

// Is the loop alone accepted with these levels for 2 and 3?
fn is_accepted(heap: Global, order: Order, first: u64, second: u64) -> Result<bool, AllocError> {
    let program = FileBytes::of_records(heap, LOOP_ALONE)?;
    let claims = [(2, Some(first)), (3, Some(second))];
    let certificate = FileBytes::of_claims(heap, 4, order, &claims)?;
    let answer = answer(program.as_slice(), certificate.as_slice());
    Ok(matches!(answer, Ok(Verdict::Accepted(_))))
}
