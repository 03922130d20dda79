//! What a step of a plan reaches.

mod laws;
mod visited;
mod visiting;

pub use feature_labels::FeatureLabel;
pub use guppy_packages::{NamedFeatureDep, PackageGraph};
pub use laws::one_visit;
pub use visited::Visited;
pub use visiting::visit;
