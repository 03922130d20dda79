//! The resolver that a workspace's root manifest chooses.

mod fault;
mod manifest;
mod resolver;

pub use fault::{KeyFault, ManifestFault, ManifestKey};
pub use manifest::{resolver_of, resolver_of_bytes};
pub use resolver::Resolver;
