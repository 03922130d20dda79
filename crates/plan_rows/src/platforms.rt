//! The platforms of a plan: which platform specs of a workspace hold on each.

mod declarations;
mod fault;
mod holding;

pub use declarations::{DeclaredSpec, declared_specs};
pub use fault::PlatformFault;
pub use holding::{HeldSpecs, every_spec, held_specs};
