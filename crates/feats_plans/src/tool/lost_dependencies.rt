//! The required dependencies of a build that a document lacks.

mod lines;
mod lost;

pub use lines::lost_lines;
