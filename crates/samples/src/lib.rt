// Files and tables built for cases, and the lines that are printed of them.
#![tactic(auto)]

pub mod bytes;
pub mod entries;
pub mod lines;
pub mod programs;
