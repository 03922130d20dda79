//! Trees and graphs of the packages that a plan builds, and of the features that are on in it.
#![tactic(auto)]

pub mod dots;
pub mod features;
pub mod packages;
pub mod trees;
