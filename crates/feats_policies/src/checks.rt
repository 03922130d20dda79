//! Which rules of a policy a build breaks.

mod build;
mod checks;
mod fault;
mod found;
mod judged;
mod marks;
mod meaning;
mod on_spots;
mod packages;
mod platforms;
mod unmatched_rules;
mod verdict;

pub use crate::{Rule, RuleKind};
pub use build::Build;
pub use checks::check;
pub use fault::CheckFault;
pub use judged::Judged;
pub use unmatched_rules::unmatched;
pub use verdict::Verdict;
