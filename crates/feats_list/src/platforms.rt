//! The platform specs that the declarations of a workspace name: on how many declarations each is, and where it holds.

mod counted;
mod counts;
mod lines;
mod listed;
mod objects;
mod places;

pub use lines::spec_lines;
pub use objects::spec_objects;
pub use places::NamedPlatform;
