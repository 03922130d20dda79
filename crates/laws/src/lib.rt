//! Laws of rows, answers and plans: what follows from the contracts of other crates. No program depends on it.
#![tactic(auto)]

pub mod answers;
pub mod plans;
pub mod rows;
