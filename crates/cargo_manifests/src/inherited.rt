//! The dependencies that members of a workspace inherit from `[workspace.dependencies]`, by their manifests.

mod declared_entries;
mod entries;
mod fault;
mod inheritance;
mod manifests;
mod sections;

pub use entries::{default_features, lists};
pub use fault::ManifestsFault;
pub use inheritance::{Inheritance, inheritance_in};
pub use manifests::manifests_in;
