//! The data of a page about a build, as one JSON value.
#![tactic(auto)]

mod declarations;
mod features;
mod numbers;
mod objects;
mod report;

pub use report::{differences_text, report_text};
