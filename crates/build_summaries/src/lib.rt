//! Build summaries as TOML, in the form that the crate `guppy-summaries` reads.
#![tactic(auto)]

mod orders;
mod packages;
mod paths;
mod strings;
mod summaries;

pub use packages::{Status, SummaryPackage, SummarySource};
pub use paths::path_from;
pub use summaries::summary_text;
