//! The feature graph: queries over it and sets of its features.
#![tactic(auto)]

mod cycles;
mod explain;
mod graph;
pub mod laws;
mod link;
mod query;
mod resolve;
mod set;

pub use cycles::{AllCycles, Cycles};
pub use explain::Explained;
pub use explain::reason::Reason;
pub use feature_core::{
    ConditionalLinkImpl, EdgeChoice, EnabledLink, Error, FeatureEdge, FeatureGraphData,
    FeatureGraphWarning, WeakIndex, WeakSlashImpl,
};
pub use feature_labels::{
    DisplayFeatures, FeatureId, FeatureKind, FeatureLabel, FeatureList, LinkDeclarations,
    feature_list,
};
pub use graph::metadata::FeatureMetadata;
pub use graph::{FeatureGraph, FeatureGraphExt};
pub use guppy_packages::{
    Declaration, DependencyDirection, DependencyKind, NamedFeature, NamedFeatureDep, PackageGraph,
    PackageId, PackageLink, PackageMetadata, PackageSet, PlatformStatus, PlatformStatusImpl, Row,
    RowError, RowFault, Spec, UnknownPackageId,
};
pub use link::ConditionalLink;
pub use link::package_links::PackageLinks;
pub use query::FeatureQuery;
pub use query::context::FeatureLinkContext;
pub use query::filter::{FeatureFilter, FeatureFilterFn, FeatureFilterObject};
pub use query::standard::StandardFeatures;
pub use query::visitor::{FeatureLinkObject, FeatureLinkVisitor};
pub use set::{
    ConditionalLinks, FeatureIds, FeatureSet, Features, IdsByNode, InitialPackages, Links,
    PackagesWithFeatures, RootFeatures, RootIds,
};
