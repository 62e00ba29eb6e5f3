// Surveys: a rule source with a mark table and a level table that the caller lends to each call.
#![tactic(auto)]

pub mod levelling;
pub mod making;
