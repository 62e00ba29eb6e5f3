// Nine answers of judge, settle and refute, over the two small programs.
use crate::programs::Programs;
use crate::refuting::print_refuted;
use crate::settling::{SettleCase, print_cases};
use samples::bytes::Order;
use samples::lines::{Tried, print_tried};
use samples::programs::{LOOP_ALONE, LOOP_WITH_ENTRY};
use std::io;

const JUDGED: &[Tried] = &[
    Tried {
        n: 4,
        program: LOOP_WITH_ENTRY,
        order: Order::Numbers,
        certificates: &[
            (
                "loop with entry, judge at 1, 2, 3",
                &[(1, Some(1)), (2, Some(2)), (3, Some(3))],
            ),
            (
                "loop with entry, judge at 1, 2, 2",
                &[(1, Some(1)), (2, Some(2)), (3, Some(2))],
            ),
            ("loop with entry, judge 1 at 1", &[(1, Some(1))]),
        ],
    },
    Tried {
        n: 4,
        program: LOOP_ALONE,
        order: Order::Numbers,
        certificates: &[
            (
                "loop alone, judge at 5 and the top",
                &[(2, Some(5)), (3, Some(4_294_967_295))],
            ),
            ("loop alone, judge without levels", &[(2, None), (3, None)]),
        ],
    },
    Tried {
        n: 4,
        program: LOOP_WITH_ENTRY,
        order: Order::Routes,
        certificates: &[(
            "loop with entry, judge by routes 0, 1, 2",
            &[(1, Some(0)), (2, Some(1)), (3, Some(2))],
        )],
    },
];

// Before settle there are no levels, and no rounds.
const NO_LEVELS: &[Option<u32>] = &[None; 4];

const NO_ROUNDS: &[u16] = &[0; 4];

const SETTLED_WITH_ENTRY: &[SettleCase] = &[(
    "loop with entry, settle 1, 2, 3",
    &[1, 1, 1, 0],
    NO_LEVELS,
    NO_ROUNDS,
)];

const SETTLED_ALONE: &[SettleCase] = &[(
    "loop alone, settle 2, 3",
    &[0, 1, 1, 0],
    NO_LEVELS,
    NO_ROUNDS,
)];

pub fn print_all(rt: &HostRuntime, programs: &Programs) -> io::Result<()> {
    println!(rt; "# nine answers over the small programs")?;
    for tried in JUDGED {
        print_tried(rt, tried)?;
    }
    print_cases(rt, &programs.with_entry, SETTLED_WITH_ENTRY)?;
    print_cases(rt, &programs.alone, SETTLED_ALONE)?;
    print_refuted(rt, "loop alone, refute", &programs.alone, &[0, 2, 1, 0])
}
