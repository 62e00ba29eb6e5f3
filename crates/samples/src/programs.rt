// Small programs that cases are tried on, as records.
use crate::bytes::Records;

// 2 from 3, 3 from 2, 2 from 1 unless 4, and 1.
pub const LOOP_WITH_ENTRY: Records = &[
    &[4, 1, 4, 4],
    &[6, 2, 2, 1, 3],
    &[6, 2, 3, 1, 2],
    &[8, 2, 2, 1, 1, 4],
    &[4, 2, 1, 0],
    &[0, 3],
];

// The same without 1.
pub const LOOP_ALONE: Records = &[
    &[4, 1, 4, 3],
    &[6, 2, 2, 1, 3],
    &[6, 2, 3, 1, 2],
    &[8, 2, 2, 1, 1, 4],
    &[0, 3],
];
