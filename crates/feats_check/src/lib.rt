//! The answers to `check`: the rules of a policy that a build breaks, or that some choice breaks, each with what breaks it and why that is on.
#![tactic(auto)]

pub mod checking;
pub mod texts;
