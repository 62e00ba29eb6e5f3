// Reading program files.
#![tactic(auto)]

pub mod parts;
pub mod reader;
