//! Feature graphs.
ghost use Rattle.std.specs.Prelude.{◌≡◌, ◌↔◌, ◌+◌, ◌<◌, ℕ, Some, IsTrue, IfSome, IfOk, IfErr, length, map};
ghost use Rattle.feature_labels.specs.Names.{id_of};
ghost use Rattle.feature_core.specs.Built.{IsBuilt, NodeNamed};
ghost use Rattle.feature_core.specs.BuiltOnce.{is_built-prop};
ghost use Rattle.feature_core.specs.Errors.{refusal_of};
ghost use Rattle.feature_core.specs.Nodes.{nodes, first_node};
ghost use Rattle.feature_core.specs.Warnings.{warning_of, warnings};
ghost use Rattle.feature_graph.specs.Names.{HasFeature, RefusesName, RefusesPackage, RefusesFeature, ListsPackage, IsLinkCount, TellsDefault};

mod dependencies;
pub(crate) mod ids;
mod listing;
pub(crate) mod metadata;
mod same_graph;
mod verify;

use crate::graph::listing::package_list;
use crate::graph::metadata::{FeatureMetadata, label_in};
use feature_core::graph_laws::node_names;
use feature_core::{Error, FeatureGraphData, FeatureGraphWarning};
use feature_labels::{FeatureId, FeatureList};
use guppy_packages::{PackageGraph, PackageId};
use std::alloc::Global;
use std::fmt;
use std::ops::Range;

/// The feature graph of a package graph: a view of the packages and of the data built from them.
#[derive(Clone, Copy)]
pub struct FeatureGraph<'g> {
    pub(crate) graph: &'g PackageGraph,
    pub(crate) built: &'g FeatureGraphData,
    pub ghost is_built: { IsBuilt graph.now built.now } by { is_built-prop graph.now built.now },
}

/// Package graphs that have feature graphs.
pub trait FeatureGraphExt {
    ghost use Rattle.guppy_packages.specs.Tables.{Tables};
    ghost use Rattle.feature_graph.specs.Views.{graph_of};

    ghost tables: { Self → Tables };

    /// Returns the feature graph of this package graph, over the data in `built`.
    fn feature_graph<'g>(&'g self, built: &'g FeatureGraphData) -> FeatureGraph<'g>
        requires { IsBuilt (tables self.now) built.now }
        ensures { graph_of result ≡ record { tables = tables self.now; built = built.now } };
}

impl FeatureGraphExt for PackageGraph {
    ghost tables = { λ graph. graph };

    fn feature_graph<'g>(&'g self, built: &'g FeatureGraphData) -> FeatureGraph<'g> {
        FeatureGraph { graph: self, built }
    }
}

impl<'g> FeatureGraph<'g> {
    ghost use Rattle.feature_graph.specs.Views.{tables_of_graph, stamp_of, feature_name_of, feature_tables_of};

    /// Returns the package graph.
    pub fn package_graph(&self) -> &'g PackageGraph
        ensures { result.now ≡ tables_of_graph self.now }
    {
        self.graph
    }

    /// Returns the stamp under which the graph was built.
    pub fn stamp(&self) -> u64
        ensures { result ≡ stamp_of self.now }
    {
        self.built.stamp()
    }

    /// Returns the warnings from building the graph. Those of feature items are first, by package, feature and index;
    /// then those of listed names, by link, declaration and index.
    pub fn build_warnings(&self) -> &'g [FeatureGraphWarning]
        ensures { map warning_of result.now ≡ warnings (tables_of_graph self.now) }
    {
        self.built.warnings()
    }

    /// Returns the number of features.
    pub fn feature_count(&self) -> usize
        ensures { result ≡ length (nodes (tables_of_graph self.now)) }
    {
        self.built.node_count()
    }

    /// Returns the number of links between features.
    pub fn link_count(&self) -> usize
        ensures { IsLinkCount (tables_of_graph self.now) result }
    {
        self.built.edge_count()
    }

    /// Returns the node of `id`, or `None` if the graph lacks it.
    pub(crate) fn node(&self, id: FeatureId<'_>) -> Option<usize>
        ensures named { (n : ℕ) → (result ≡ Some n) ↔ NodeNamed (tables_of_graph self.now) n (id_of id.entry) }
        ensures within { IfSome result (λ n. n < length (nodes (tables_of_graph self.now))) }
    {
        self.built.node(self.graph, id)
    }

    /// Returns the id of `node`.
    pub(crate) fn id(&self, node: usize) -> FeatureId<'g>
        requires { node < length (nodes (tables_of_graph self.now)) }
        ensures { NodeNamed (tables_of_graph self.now) node (id_of result) }
    {
        self.built.id(self.graph, node)
    }

    /// Returns the nodes of the package with this number.
    pub(crate) fn nodes_of(&self, package_ix: usize) -> Range<usize>
        requires { package_ix < length (tables_of_graph self.now).packages }
        ensures first { result.start ≡ first_node (tables_of_graph self.now) package_ix }
        ensures end { result.end ≡ first_node (tables_of_graph self.now) (package_ix + 1) }
    {
        let count = self.graph.package_count();
        let next = package_ix + 1;
        let end = if next < count {
            self.built.first_node(next)
        } else {
            self.feature_count()
        };
        self.built.first_node(package_ix)..end
    }

    /// Returns true if the graph has the feature.
    pub fn contains(&self, id: FeatureId<'_>) -> bool
        ensures { IsTrue result ↔ HasFeature (tables_of_graph self.now) (id_of id.entry) }
    {
        self.node(id).is_some()
    }

    /// Returns the feature with this id, or `UnknownFeatureId` if the graph lacks it.
    pub fn metadata<'a>(&self, id: FeatureId<'a>) -> Result<FeatureMetadata<'g>, Error<'a>>
        ensures graph { IfOk result (λ m. feature_tables_of m ≡ tables_of_graph self.now) }
        ensures name { IfOk result (λ m. feature_name_of m ≡ id_of id.entry) }
        ensures known { IfOk result (λ m. HasFeature (tables_of_graph self.now) (id_of id.entry)) }
        ensures refused { IfErr result (λ e. RefusesName (tables_of_graph self.now) (id_of id.entry) (refusal_of e)) }
    {
        self.graph.facts();
        node_names(self.graph);
        let Ok(package) = self.graph.metadata(id.package_id()) else {
            return Err(Error::UnknownFeatureId(id));
        };
        match label_in(package, id.label()) {
            Some(label) => Ok(FeatureMetadata { package, label }),
            None => Err(Error::UnknownFeatureId(id)),
        }
    }
}

impl<'g> FeatureGraph<'g> {
    ghost use Rattle.feature_graph.specs.Views.{tables_of_graph};

    /// Returns all features of a package. The error is `UnknownPackageId` if no package has this id, or `Memory`.
    pub fn all_features_for<'a>(
        &self,
        alloc: Global,
        package_id: &'a PackageId,
    ) -> Result<FeatureList<'g>, Error<'a>>
        ensures listed { IfOk result (λ list. ListsPackage (tables_of_graph self.now) package_id.now list) }
        ensures refused { IfErr result (λ e. RefusesPackage (tables_of_graph self.now) package_id.now (refusal_of e)) }
    {
        let Ok(package) = self.graph.metadata(package_id) else {
            return Err(Error::UnknownPackageId(package_id));
        };
        match package_list(alloc, package) {
            Ok(list) => Ok(list),
            Err(_) => Err(Error::Memory),
        }
    }

    /// Returns true if a feature of the graph is on by default in its package.
    pub(crate) fn is_default(&self, id: FeatureId<'_>) -> bool
        requires { HasFeature (tables_of_graph self.now) (id_of id) }
        ensures { TellsDefault (tables_of_graph self.now) (id_of id.entry) result }
    {
        match self.node(id) {
            Some(node) => self.built.is_default(node),
            None => unreachable!(),
        }
    }

    /// Returns true if the feature is on by default in its package. The default features are those reachable from the
    /// package's feature `default`, or from its base if it has none. Only edges to the base and between named features
    /// of the package are followed.
    ///
    /// The error is `UnknownPackageId` if no package has the id's package, or `UnknownFeatureId` if the package lacks
    /// the feature.
    pub fn is_default_feature<'a>(&self, id: FeatureId<'a>) -> Result<bool, Error<'a>>
        ensures told { IfOk result (λ answer. TellsDefault (tables_of_graph self.now) (id_of id.entry) answer) }
        ensures refused { IfErr result (λ e. RefusesFeature (tables_of_graph self.now) (id_of id.entry) (refusal_of e)) }
    {
        let Ok(_) = self.graph.metadata(id.package_id()) else {
            return Err(Error::UnknownPackageId(id.package_id()));
        };
        match self.node(id) {
            Some(node) => Ok(self.built.is_default(node)),
            None => Err(Error::UnknownFeatureId(id)),
        }
    }
}

impl fmt::Debug for FeatureGraph<'_> {
    fn fmt<W: fmt::Write>(&self, f: &mut fmt::Formatter<W>) -> fmt::Result {
        f.debug_struct("FeatureGraph")
            .field("feature_count", &self.feature_count())
            .finish()
    }
}
