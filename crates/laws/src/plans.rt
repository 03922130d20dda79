//! Laws of plans.

pub mod choices;
pub mod denies;
pub mod laws;
