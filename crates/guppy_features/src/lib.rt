//! The feature graph: queries over it and sets of its features, filters with a list of names or ids, and a
//! visitor for a platform. The crate re-exports every type of this repository in its API, and `specs` every definition in its
//! contracts.
#![tactic(auto)]

pub mod graph_platforms;
mod listed_filters;
mod platform_visitor;

pub use digraph_orders::Order;
pub use digraphs::{Digraph, DigraphError, Edge, EdgeColumns, IxBitSet, Ones};
pub use feature_graph::{
    AllCycles, ConditionalLink, ConditionalLinkImpl, ConditionalLinks, Cycles, Declaration,
    DependencyDirection, DependencyKind, DisplayFeatures, EdgeChoice, EnabledLink, Error,
    Explained, FeatureEdge, FeatureFilter, FeatureFilterFn, FeatureFilterObject, FeatureGraph,
    FeatureGraphData, FeatureGraphExt, FeatureGraphWarning, FeatureId, FeatureIds, FeatureKind,
    FeatureLabel, FeatureLinkContext, FeatureLinkObject, FeatureLinkVisitor, FeatureList,
    FeatureMetadata, FeatureQuery, FeatureSet, Features, IdsByNode, InitialPackages,
    LinkDeclarations, Links, NamedFeature, NamedFeatureDep, PackageGraph, PackageId, PackageLink,
    PackageLinks, PackageMetadata, PackageSet, PackagesWithFeatures, PlatformStatus,
    PlatformStatusImpl, Reason, RootFeatures, RootIds, Row, RowError, RowFault, Spec,
    StandardFeatures, UnknownPackageId, WeakIndex, WeakSlashImpl, feature_list, laws,
};
pub use feature_labels::feature_list::{IntoIter, Iter, NamedFeatures, OptionalDeps};
pub use guppy_packages::{Packages, RowSource};
pub use guppy_support::Reading;
pub use listed_filters::{
    FeatureIdFilter, NamedFeatureFilter, feature_id_filter, named_feature_filter,
};
pub use platform_visitor::PlatformVisitor;
pub use walk_engine::{Half, Offerer};
