//! Trees and graphs of the features that are on in a plan.

mod commands;
mod dots;
mod keys;
mod links;
mod roots;
mod titles;
mod trees;

pub use crate::packages::{inverted_package_tree, package_dot, package_tree};
pub use dots::feature_dot;
pub use trees::{feature_tree, inverted_feature_tree};
