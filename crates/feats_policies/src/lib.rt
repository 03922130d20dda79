//! Policies: files whose lines are rules about the features and packages of a build.
#![tactic(auto)]

pub mod checks;
mod fault;
mod kinds;
mod line_parts;
mod policy;
mod problem;
mod rule;

pub use fault::PolicyFault;
pub use policy::parse;
pub use problem::Problem;
pub use rule::{Rule, RuleKind};
