//! The features that a visit reaches.
ghost use Rattle.std.specs.Prelude.{◌≡◌, ◌<◌, ℕ, IfOk, length, map};
ghost use Rattle.digraphs.specs.Bits.{has};
ghost use Rattle.feature_labels.specs.Names.{label_of};
ghost use Rattle.feature_core.specs.Built.{IsBuilt};
ghost use Rattle.feature_core.specs.Nodes.{NodeAt, node_packages};
ghost use Rattle.plan_starts.specs.step_visits.Visits.{is_start, node_at, reaches, place_view};

use crate::step_visits::visiting::start_nodes;
use digraphs::IxBitSet;
use feature_core::FeatureGraphData;
use feature_labels::{FeatureId, FeatureLabel};
use guppy_packages::PackageGraph;
use std::alloc::{AllocError, Global};
use std::marker::Model;

/// The features that a visit reaches, with the graph that it walked. A contract sees the tables, and whether each node was reached.
pub struct Visited {
    pub(crate) packages: PackageGraph,
    pub(crate) built: FeatureGraphData,
    pub(crate) members: IxBitSet,
}

impl Drop for Visited {
    // Written out, so that a crate above calls it. A derived drop is proved in each crate that drops a value, with those of all fields.
    fn drop(self) {
        let Visited {
            packages: _packages,
            built: _built,
            members: _members,
        } = self;
    }
}

impl Model for Visited {
    ghost use Rattle.plan_starts.specs.step_visits.Visits.{Visit};

    ghost Value = { Visit };

    ghost use Rattle.std.specs.Prelude.{◌≡◌, length};
    ghost use Rattle.feature_core.specs.Built.{IsBuilt};

    ghost view = { λ v. record { tables = v.packages; members = v.members } };

    ghost invariant = { λ v. IsBuilt v.packages v.built × (length v.members ≡ length v.built.packages) };
}

/// Returns the node of `label` of package `ix`, if there is such a package and it has the label. The data must be built from
/// `packages`.
pub(crate) fn node_of(
    packages: &PackageGraph,
    built: &FeatureGraphData,
    ix: usize,
    label: FeatureLabel<'_>,
) -> Option<usize>
    requires { IsBuilt packages.now built.now }
    ensures { result ≡ node_at packages.now ix (label_of label.entry) }
{
    packages.facts();
    if ix >= packages.package_count() {
        return None;
    }
    let id = packages.package(ix).id();
    built.node(packages, FeatureId::new(id, label))
}

impl Visited {
    /// Returns the tables that were visited.
    pub fn packages(&self) -> &PackageGraph
        ensures { result.now ≡ self.now.tables }
    {
        &self.packages
    }

    /// Returns the feature graph of the tables.
    pub fn built(&self) -> &FeatureGraphData
        ensures { IsBuilt self.now.tables result.now }
    {
        &self.built
    }

    /// Returns the nodes that were reached, as a set of all nodes.
    pub fn members(&self) -> &IxBitSet
        ensures members { result.now ≡ self.now.members }
        ensures size { length self.now.members ≡ length (node_packages self.now.tables) }
    {
        &self.members
    }

    /// Returns the node of `label` of package `ix`, or `None` if there is no such package, or it lacks the label.
    pub fn node(&self, ix: usize, label: FeatureLabel<'_>) -> Option<usize>
        ensures { result ≡ node_at self.now.tables ix (label_of label.entry) }
    {
        node_of(&self.packages, &self.built, ix, label)
    }

    /// Returns the number of the package of `node`, and its label.
    pub fn place(&self, node: usize) -> (usize, FeatureLabel<'_>)
        requires { node < length (node_packages self.now.tables) }
        ensures { NodeAt self.now.tables node result.0 (label_of result.1) }
    {
        let id = self.built.id(&self.packages, node);
        (self.built.package_of(node), id.label())
    }

    /// Returns the nodes of `starts`, each a package's number and a label. One that the tables lack has no node.
    pub fn start_nodes(
        &self,
        alloc: Global,
        starts: &[(usize, FeatureLabel<'_>)],
    ) -> Result<IxBitSet, AllocError>
        ensures size { IfOk result (λ set. length set ≡ length (node_packages self.now.tables)) }
        ensures nodes { IfOk result (λ set. (n : ℕ) → has set n ≡ is_start self.now.tables (map place_view starts.now) n) }
    {
        start_nodes(alloc, &self.packages, &self.built, starts)
    }

    /// Returns whether the visit reached `label` of package `ix`; false if there is no such package, or it lacks the label.
    pub fn reaches(&self, ix: usize, label: FeatureLabel<'_>) -> bool
        ensures { result ≡ reaches self.now ix (label_of label.entry) }
    {
        match node_of(&self.packages, &self.built, ix, label) {
            Some(node) => self.members.contains(node),
            None => false,
        }
    }
}
