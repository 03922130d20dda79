//! The packages of a workspace as `cargo metadata` writes them, and where their declarations lead.
#![tactic(auto)]

mod aliases;
mod dependencies;
mod leads;
mod names;
mod nodes;
mod packages;
mod requirements;
mod targets;
mod uses;

pub use dependencies::{Dependency, Found, check_names, choice, dependencies_of, name_of};
pub use leads::{Described, Leads, Links, described_in};
pub use names::{Names, names_of};
pub use nodes::{Dep, Node, Nodes, Resolved, node_at, resolved_in};
pub use packages::{Declaration, Package, Packages, Use, packages_of};
pub use uses::{Platforms, Uses};
