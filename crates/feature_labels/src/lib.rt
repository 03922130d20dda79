//! Feature ids, feature labels and lists of them.
#![tactic(auto)]

mod display_features;
mod feature_id;
mod feature_label;
pub mod feature_list;
pub mod laws;
mod link_declarations;

pub use display_features::DisplayFeatures;
pub use feature_id::FeatureId;
pub use feature_label::{FeatureKind, FeatureLabel};
pub use feature_list::FeatureList;
pub use link_declarations::LinkDeclarations;
