//! The features and the optional dependencies of a package: on which sides each is built, and its items.

mod lines;
mod listed;
mod objects;
mod optional_names;

pub use lines::feature_lines;
pub use objects::feature_objects;
