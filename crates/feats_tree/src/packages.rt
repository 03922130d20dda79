//! Trees and graphs of the packages that a plan builds.

mod details;
mod dots;
mod titles;
mod tree_texts;
mod trees;

pub use details::{detail_at, details_of, titles_with};
pub use dots::package_dot;
pub use titles::titles_of;
pub use tree_texts::titled_text;
pub use trees::{inverted_package_tree, package_tree};
