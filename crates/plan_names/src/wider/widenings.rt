//! What a feature is if more is selected: the widened selections of a command line, and what their plans show.

mod sides;
mod widening;
mod words;

pub use sides::{Sides, sides_of};
pub use widening::Widening;
pub use words::{adds, widened};
