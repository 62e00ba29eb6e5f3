// What is kept while the atoms of a marked set are taken round by round.
ghost use Rattle.std.specs.Prelude.{◌≡◌, length};

use crate::START;
use rules::MAX_RULES;
use waiting::WaitingLists;

// Places for the rules 1, 2, ..
const RULE_PLACES: usize = MAX_RULES as usize + 1;

// Places for the atoms 1, 2, .., and for the start after them.
const ATOM_PLACES: usize = START as usize + 1;

// Where the taking stands.
#[derive(Drop)]
pub(crate) struct Taking {
    // rules, each under the positive atom that it waits for
    pub(crate) waiting: WaitingLists<RULE_PLACES>,
    // atoms, each under the round in which the rules that wait for it are asked: the one after that which took it
    pub(crate) coming: WaitingLists<ATOM_PLACES>,
    // for each rule, the position after that of the atom that it waits for: at most 255, since parts are short
    pub(crate) positions: [u8; MAX_RULES as usize],
    ghost sized: { length positions ≡ 16384 },
}

// A positive atom that a rule waits for, and its position.
#[derive(Clone, Copy)]
pub(crate) struct Wait {
    pub(crate) position: u16,
    pub(crate) atom: u16,
}
