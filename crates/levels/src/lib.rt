// Levels: what an order of levels is, how levels are stored, and the table that holds a level or none for each atom.
#![tactic(auto)]

pub mod order;
pub mod table;
