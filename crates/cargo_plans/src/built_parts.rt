//! The parts that a plan builds: those that are on, in packages that are built.

mod built_parts;
mod flags;
mod scripts;
mod state;

pub use built_parts::BuiltParts;
pub use scripts::LackingScripts;
pub use state::PartState;
