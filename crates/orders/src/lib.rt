// The level orders: numbers and routes.
#![tactic(auto)]

pub mod kind;
pub mod numbers;
pub mod routes;
