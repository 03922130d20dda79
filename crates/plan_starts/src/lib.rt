//! The entries at which step `built` of a plan starts.
#![tactic(auto)]

mod flags;
mod marks;
mod package_visit;
mod starts;
pub mod step_visits;
mod targets;
mod tests_of;
mod unfit_words;

pub use flags::{dev_flags, start_places};
pub use package_visit::PackageVisit;
pub use plan_rows::Side;
pub use starts::{Starts, first_missing, starts_of};
pub use step_visits::{FeatureLabel, NamedFeatureDep, PackageGraph, Visited, visit};
pub use targets::{TargetRules, has_macro_at};
pub use tests_of::first_without_tests;
pub use unfit_words::{UnfitWord, first_unfit};
