// The console's library: the answer for two files, and the line that is printed for it.
#![tactic(auto)]

pub mod answer;
pub mod line;
