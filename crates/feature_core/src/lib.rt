//! The data of a feature graph: its edges with the order of its nodes, the default features and the gates, and walks over it.
#![tactic(auto)]

mod checks;
mod chosen_reach;
mod data;
mod defaults;
mod directed_edges;
pub mod engine;
mod equality;
mod error;
mod gates;
pub mod graph_laws;
pub mod laws;
mod walks;

pub use checks::{check_exact_steps, check_steps, why};
pub use data::FeatureGraphData;
pub use directed_edges::Packed;
pub use error::Error;
pub use feature_edges::{
    ConditionalLinkImpl, EdgeChoice, EnabledLink, FeatureEdge, FeatureGraphWarning, WeakIndex,
    WeakSlashImpl,
};
pub use walks::{walk, walk_all};
