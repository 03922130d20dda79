//! The wider selections of a plan, and the words for them.

pub mod texts;
pub mod widenings;
