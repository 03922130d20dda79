//! The platform specs of a package graph that hold for a target, and what is on for it.

mod fault;
mod held_texts;
mod laws;
mod resolving;
mod spec_texts;

pub use fault::PlatformFault;
pub use held_texts::held_specs;
pub use laws::held_exactly;
pub use resolving::resolve_for;
