//! The build summary of a plan.
#![tactic(auto)]

mod direct;
mod packages;
mod places;
mod summaries;

pub use summaries::plan_summary;
