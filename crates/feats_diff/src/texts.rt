//! What differs between two plans as lines in columns, or as JSON objects.

mod columns;
mod lines;
mod objects;
mod rows;
mod shown;
mod titles;

pub use feats_lines::Shown;
pub use lines::difference_lines;
pub use objects::difference_objects;
pub use shown::{Difference, Turned};
