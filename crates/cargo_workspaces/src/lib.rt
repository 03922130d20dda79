//! The packages of a workspace, as `cargo metadata` describes them, without its JSON.
#![tactic(auto)]

mod package;
mod workspace;

pub use package::{Declaration, Feature, Kind, Package, Target};
pub use workspace::Workspace;
