//! What words name: packages, features of packages, and optional dependencies.
#![tactic(auto)]

mod fault;
mod marks;
mod matches;
mod named;
mod near;
mod nearest_parts;
mod package_parts;
mod parts;
pub mod wider;
mod word_cuts;
mod words;

pub use fault::NameFault;
pub use matches::{packages_matching, parts_matching};
pub use named::{Named, Part};
pub use nearest_parts::suggestions;
pub use words::{package_named, parts_named};
