//! The builder of a feature graph's edges: the numbers of the nodes, the edges of a package graph with its weak links, and the
//! warnings.
#![tactic(auto)]

mod alike_keys;
mod candidate;
mod collect;
mod default_nodes;
mod gate_nodes;
mod gates;
mod make;
mod node_numbers;
mod nodes;
mod pool;
pub mod table;
mod warnings;

pub use default_nodes::default_at;
pub use feature_labels::{FeatureId, FeatureLabel};
pub use feature_links::{
    ConditionalLinkImpl, EdgeChoice, EnabledLink, FeatureEdge, WeakIndex, WeakSlashImpl,
    named_links,
};
pub use guppy_packages::{
    DependencyDirection, PackageGraph, PackageId, PackageMetadata, PlatformStatus, Spec,
};
pub use node_numbers::{Numbers, label_at, numbers_in};
pub use nodes::{NodeTable, node_table};
pub use pool::{EdgeList, first_absent};
pub use warnings::FeatureGraphWarning;
