//! The packages of a plan with their features, the places of command features, and dependencies that a document lacks.

mod commands;
mod lacking;
mod unit;
mod units;

pub use commands::push_commands;
pub use lacking::first_lacking;
pub use plan_starts::{
    FeatureLabel, PackageGraph, PackageVisit, Side, Starts, TargetRules, UnfitWord, Visited,
    dev_flags, first_missing, first_unfit, first_without_tests, start_places, starts_of, visit,
};
pub use unit::{Place, Unit};
pub use units::units_of;
