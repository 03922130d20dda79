//! The data of a feature graph, built from a package graph.
ghost use Rattle.std.specs.Prelude.{◌≡◌, ◌+◌, ◌<◌, ◌↔◌, ℕ, Some, IfOk, IfErr, IsTrue, length, map, not, position, slice_get};
ghost use Rattle.feature_edges.specs.guppy_packages.Metadata.{package_graph_of};
ghost use Rattle.feature_edges.specs.guppy_packages.Tables.{Tables};
ghost use Rattle.feature_edges.specs.feature_labels.Names.{id_of, label_of};
ghost use Rattle.feature_edges.specs.Nodes.{NodeAt, nodes, first_node, first_nodes, node_packages};
ghost use Rattle.digraphs.specs.Bits.{has};
ghost use Rattle.feature_edges.specs.Pairs.{IsPairList, PairLeads, ReachAlong};
ghost use Rattle.digraph_orders.specs.Sequences.{IsOrderOf};
ghost use Rattle.guppy_support.specs.Cycles.{cyclic_components};
ghost use Rattle.feature_core.specs.Built.{AreAlike, IsBuilt, NodeNamed, built_edges, digraph_of, end_of, pairs_of};
ghost use Rattle.feature_edges.specs.Choices.{chosen_pairs};
ghost use Rattle.feature_core.specs.Defaults.{AreDefaults, IsDefault};
ghost use Rattle.feature_edges.specs.DefaultNodes.{AreDefaultNodes};
ghost use Rattle.feature_edges.specs.Edges.{AreBuilt};
ghost use Rattle.feature_edges.specs.feature_links.Facts.{has_present_link};
ghost use Rattle.feature_edges.specs.feature_links.Values.{edge_facts};
ghost use Rattle.feature_edges.specs.Warnings.{warning_of, warnings, warnings_in};
ghost use Rattle.feature_core.specs.inner.Releases.{AreReleases};
ghost use Rattle.feature_core.specs.Ways.{content};

use crate::chosen_reach::reach_chosen;
use crate::defaults::default_marks;
use crate::directed_edges::Packed;
use crate::equality::{same_edges, same_gates, same_numbers, same_pairs, same_warnings};
use crate::error::Error;
use crate::gates::release_table;
use digraph_orders::Order;
use digraphs::{Digraph, IxBitSet};
use feature_edges::table::{EdgeTable, edge_table};
use feature_edges::{
    DependencyDirection, EdgeChoice, EdgeList, FeatureEdge, FeatureGraphWarning, FeatureId,
    FeatureLabel, NodeTable, Numbers, PackageGraph, PackageMetadata, first_absent, label_at,
    named_links, node_table, numbers_in,
};
use guppy_support::cyclic_components;
use indexmap::IndexMap;
use std::alloc::{AllocError, Global};
use std::marker::Model;

/// The nodes and edges of a package graph's features. A contract sees the stamp, the node table, the edges, the weak links with
/// their gates, the warnings, and the default features.
pub struct FeatureGraphData {
    stamp: u64,
    table: NodeTable,
    digraph: Digraph,
    order: Order,
    cyclic: Vec<usize>,
    edges: EdgeList,
    weak: IndexMap<usize, usize>,
    released: Vec<(usize, usize)>,
    warnings: Vec<FeatureGraphWarning>,
    defaults: IxBitSet,
}

impl Drop for FeatureGraphData {
    // Written out, so that a crate above calls it. A derived drop is proved in each crate that drops a value, with those of all fields.
    fn drop(self) {
        let FeatureGraphData {
            stamp: _stamp,
            table: _table,
            digraph: _digraph,
            order: _order,
            cyclic: _cyclic,
            edges: _edges,
            weak: _weak,
            released: _released,
            warnings: _warnings,
            defaults: _defaults,
        } = self;
    }
}

impl Model for FeatureGraphData {
    ghost use Rattle.std.specs.Prelude.{◌≡◌, length, map};
    ghost use Rattle.digraph_orders.specs.Sequences.{IsOrderOf};
    ghost use Rattle.guppy_support.specs.Cycles.{cyclic_components};
    ghost use Rattle.feature_core.specs.Built.{Built, built_edges, end_of};
    ghost use Rattle.feature_core.specs.inner.Releases.{AreTied};
    ghost use Rattle.feature_edges.specs.Warnings.{warnings_in};

    ghost Value = { Built };

    ghost view = { λ d. record { stamp = d.stamp; firsts = d.table.firsts.items; packages = d.table.packages.items; edges = built_edges d.digraph.edges d.edges; weak = d.weak.entries; warnings = warnings_in d.warnings; defaults = d.defaults } };

    ghost invariant = { λ d.
        (d.digraph.nodes ≡ length d.table.packages.items)
        × (length d.edges ≡ length d.digraph.edges)
        × (d.digraph.edges ≡ map end_of (built_edges d.digraph.edges d.edges))
        × AreTied d.digraph d.edges d.weak.entries d.released.items
        × (length d.defaults ≡ length d.table.packages.items)
        × IsOrderOf d.digraph d.order
        × (d.cyclic.items ≡ cyclic_components d.digraph.edges d.order) };
}

/// Returns the node of the feature `label` of a package, or `None` if the package doesn't have it.
fn number_of(
    numbers: Numbers<'_>,
    metadata: PackageMetadata<'_>,
    label: FeatureLabel<'_>,
) -> Option<usize>
    requires { package_graph_of metadata ≡ numbers.graph.now }
    ensures { (n : ℕ) → (result ≡ Some n) ↔ NodeAt numbers.entry.graph.now n metadata.entry.package_ix (label_of label.entry) }
{
    match label {
        FeatureLabel::Base => Some(numbers.base(metadata)),
        FeatureLabel::Named(name) => numbers.named(metadata, name),
        FeatureLabel::OptionalDependency(name) => numbers.optional(metadata, name),
    }
}

/// The data computed from the edges: the features that are on by default, the edges that wait for a gate, the order, and the
/// components with a cycle.
#[derive(Drop)]
struct Found {
    defaults: IxBitSet,
    released: Vec<(usize, usize)>,
    order: Order,
    cyclic: Vec<usize>,
}

/// Returns the order of `digraph` and its components with a cycle.
fn ordered(alloc: Global, digraph: &Digraph) -> Result<(Order, Vec<usize>), AllocError>
    ensures order { IfOk result (λ o. IsOrderOf digraph.now o.0) }
    ensures cyclic { IfOk result (λ o. o.1.items ≡ cyclic_components digraph.now.edges o.0) }
{
    let order = Order::new(alloc, digraph)?;
    let cyclic = cyclic_components(alloc, &order, digraph)?;
    Ok((order, cyclic))
}

/// Returns the data computed from the edges of `table`.
fn found_with(alloc: Global, numbers: Numbers<'_>, table: &EdgeTable) -> Result<Found, AllocError>
    requires nodes { table.now.digraph.nodes ≡ length (node_packages numbers.graph.now) }
    requires long { length table.now.edges ≡ length table.now.digraph.edges }
    requires edges { AreBuilt numbers.graph.now (built_edges table.now.digraph.edges table.now.edges) table.now.weak.entries }
    requires defaults { AreDefaultNodes numbers.graph.now table.now.defaults.items }
    ensures defaults { IfOk result (λ f. AreDefaults numbers.entry.graph.now f.defaults) }
    ensures released { IfOk result (λ f. AreReleases table.now.edges table.now.weak.entries f.released.items) }
    ensures order { IfOk result (λ f. IsOrderOf table.now.digraph f.order) }
    ensures cyclic { IfOk result (λ f. f.cyclic.items ≡ cyclic_components table.now.digraph.edges f.order) }
{
    // The order comes first: no other takes as much memory while it is made.
    let (order, cyclic) = ordered(alloc, &table.digraph)?;
    let released = release_table(alloc, &table.edges, &table.weak)?;
    let defaults = default_marks(alloc, numbers, table)?;
    Ok(Found {
        defaults,
        released,
        order,
        cyclic,
    })
}

/// Returns the edges of the nodes of `table`, and the warnings.
fn made(
    alloc: Global,
    numbers: Numbers<'_>,
    table: &NodeTable,
) -> Result<(EdgeTable, Vec<FeatureGraphWarning>), AllocError>
    requires firsts { table.now.firsts.items ≡ first_nodes numbers.graph.now }
    requires packages { table.now.packages.items ≡ node_packages numbers.graph.now }
    ensures nodes { IfOk result (λ m. m.0.digraph.nodes ≡ length table.now.packages.items) }
    ensures pairs { IfOk result (λ m. IsPairList numbers.entry.graph.now (pairs_of m.0.digraph.edges)) }
    ensures long { IfOk result (λ m. length m.0.edges ≡ length m.0.digraph.edges) }
    ensures ends { IfOk result (λ m. m.0.digraph.edges ≡ map end_of (built_edges m.0.digraph.edges m.0.edges)) }
    ensures edges { IfOk result (λ m. AreBuilt numbers.entry.graph.now (built_edges m.0.digraph.edges m.0.edges) m.0.weak.entries) }
    ensures defaults { IfOk result (λ m. AreDefaultNodes numbers.entry.graph.now m.0.defaults.items) }
    ensures warnings { IfOk result (λ m. warnings_in m.1 ≡ warnings numbers.entry.graph.now) }
{
    let groups = named_links(alloc, numbers.graph)?;
    edge_table(alloc, numbers, table, &groups)
}

/// Returns the feature graph of `graph`, marked with `stamp`.
fn built(alloc: Global, graph: &PackageGraph, stamp: u64) -> Result<FeatureGraphData, AllocError>
    ensures built { IfOk result (λ b. IsBuilt graph.now b) }
    ensures stamp { IfOk result (λ b. b.stamp ≡ stamp) }
{
    let table = node_table(alloc, graph)?;
    let numbers = numbers_in(graph, &table);
    let (edge_table, warnings) = made(alloc, numbers, &table)?;
    let found = found_with(alloc, numbers, &edge_table)?;
    Ok(FeatureGraphData {
        stamp,
        table,
        digraph: edge_table.digraph,
        order: found.order,
        cyclic: found.cyclic,
        edges: edge_table.edges,
        weak: edge_table.weak,
        released: found.released,
        warnings,
        defaults: found.defaults,
    })
}

impl FeatureGraphData {
    /// Returns the feature graph of `graph`, marked with `stamp`. `Memory` is the only error: an allocation failed, or the graph is over
    /// a [limit](../../../docs/DIFFERENCES.md#limits).
    pub fn build(
        alloc: Global,
        graph: &PackageGraph,
        stamp: u64,
    ) -> Result<FeatureGraphData, Error<'static>>
        ensures built { IfOk result (λ b. IsBuilt graph.now b) }
        ensures stamp { IfOk result (λ b. b.stamp ≡ stamp) }
        ensures refused { IfErr result (λ e. e ≡ Error.Memory) }
    {
        match built(alloc, graph, stamp) {
            Ok(data) => Ok(data),
            Err(_) => Err(Error::Memory),
        }
    }

    /// Returns the stamp that the caller passed to `build`.
    pub fn stamp(&self) -> u64
        ensures { result ≡ self.now.stamp }
    {
        self.stamp
    }

    /// Returns the warnings of features' items, then those of the names that declarations list.
    pub fn warnings(&self) -> &[FeatureGraphWarning]
        ensures { map warning_of result.now ≡ self.now.warnings }
    {
        self.warnings.as_slice()
    }

    /// Returns the number of nodes.
    pub fn node_count(&self) -> usize
        ensures { result ≡ length self.now.packages }
    {
        self.table.packages.len()
    }

    /// Returns the number of edges.
    pub fn edge_count(&self) -> usize
        ensures { result ≡ length self.now.edges }
    {
        self.digraph.edge_count()
    }

    /// Returns the edges as a digraph of the nodes. A conditional edge is dev-only there if its link has no declaration for
    /// normal use or for build scripts.
    pub fn digraph(&self) -> &Digraph
        ensures nodes { result.now.nodes ≡ length self.now.packages }
        ensures edges { result.now.edges ≡ map end_of self.now.edges }
    {
        &self.digraph
    }

    /// Returns the order of the digraph's nodes and components. It was computed with the graph.
    pub fn order(&self) -> &Order
        ensures { IsOrderOf (digraph_of self.now) result.now }
    {
        &self.order
    }

    /// Returns the order, and the numbers of its components with a cycle, the last one first. These have two nodes or more, or
    /// one node with an edge to itself. They were computed with the graph.
    pub fn cyclic_components(&self) -> (&Order, &[usize])
        ensures order { IsOrderOf (digraph_of self.now) result.0.now }
        ensures cyclic { result.1.now ≡ cyclic_components (digraph_of self.now).edges result.0.now }
    {
        (&self.order, self.cyclic.as_slice())
    }

    /// Returns the source and the target of edge `number`, and the edge.
    pub fn edge(&self, number: usize) -> (usize, usize, &FeatureEdge)
        requires { number < length self.now.edges }
        ensures { slice_get self.now.edges number ≡ Some (result.0, result.1, edge_facts result.2.now) }
    {
        let ends = self.digraph.edge(number);
        (ends.from, ends.to, self.edges.get(number))
    }

    /// Returns the number of the first edge whose link is present for no kind of dependency, or `None`.
    pub fn first_absent_link(&self) -> Option<usize>
        ensures { result ≡ position (λ e. not (has_present_link e.2)) self.now.edges }
    {
        first_absent(&self.edges)
    }

    /// Returns the weak links, by index: the package link of its weak edges, and the gate, which is the node that their optional
    /// halves wait for.
    pub fn weak_links(&self) -> &IndexMap<usize, usize>
        ensures { result.now.entries ≡ self.now.weak }
    {
        &self.weak
    }

    /// Returns the number of the package of node `ix`.
    pub fn package_of(&self, ix: usize) -> usize
        requires { ix < length self.now.packages }
        ensures { slice_get self.now.packages ix ≡ Some result }
    {
        self.table.packages[ix] as usize
    }

    /// Returns the first node of package `package_ix`.
    pub fn first_node(&self, package_ix: usize) -> usize
        requires { package_ix < length self.now.firsts }
        ensures { slice_get self.now.firsts package_ix ≡ Some result }
    {
        self.table.firsts[package_ix] as usize
    }

    /// Returns whether node `ix` is on by default: reachable from its package's default feature over edges to the base and edges
    /// between the package's named features.
    pub fn is_default(&self, ix: usize) -> bool
        requires { ix < length self.now.packages }
        ensures mark { result ≡ has self.now.defaults ix }
        ensures meaning { (t : Tables) → IsBuilt t self.now → IsTrue result ↔ IsDefault t ix }
    {
        self.defaults.contains(ix)
    }
}

impl FeatureGraphData {
    /// Returns the node of the feature `id`, or `None` if the graph doesn't have it. The data must be built from `graph`.
    pub fn node(&self, graph: &PackageGraph, id: FeatureId<'_>) -> Option<usize>
        requires { IsBuilt graph.now self.now }
        ensures { (n : ℕ) → (result ≡ Some n) ↔ NodeNamed graph.now n (id_of id.entry) }
    {
        graph.facts();
        match graph.metadata(id.package_id()) {
            Ok(metadata) => number_of(numbers_in(graph, &self.table), metadata, id.label()),
            Err(_) => None,
        }
    }

    /// Returns the id of node `ix`. The data must be built from `graph`.
    pub fn id<'g>(&self, graph: &'g PackageGraph, ix: usize) -> FeatureId<'g>
        requires built { IsBuilt graph.now self.now }
        requires node { ix < length self.now.packages }
        ensures { NodeNamed graph.now ix (id_of result) }
    {
        let metadata = graph.package(self.package_of(ix));
        let label = label_at(graph, &self.table.firsts, &self.table.packages, ix);
        FeatureId::new(metadata.id(), label)
    }
}

impl FeatureGraphData {
    /// Returns the nodes reached from `initials` in `direction` over the edges that `which` chooses.
    pub(crate) fn reach(
        &self,
        alloc: Global,
        direction: DependencyDirection,
        initials: &IxBitSet,
        which: EdgeChoice,
    ) -> Result<IxBitSet, AllocError>
        requires { length initials.now ≡ length self.now.packages }
        ensures size { IfOk result (λ set. length set ≡ length self.now.packages) }
        ensures members { IfOk result (λ set. (n : ℕ) → IsTrue (has set n) ↔ ReachAlong (PairLeads (chosen_pairs which self.now.edges) direction) (has initials.now) n) }
    {
        reach_chosen(
            alloc,
            &self.digraph,
            &self.edges,
            which,
            direction,
            initials,
        )
    }

    /// Returns the edges as a source of walks in `direction`.
    pub(crate) fn packed(&self, direction: DependencyDirection) -> Packed<'_>
        ensures { result ≡ record { holds = content direction (length self.now.packages) self.now.edges self.now.weak; reads = 0 } }
    {
        Packed::over(
            &self.digraph,
            &self.edges,
            &self.weak,
            &self.released,
            direction,
        )
    }
}

impl FeatureGraphData {
    /// Returns whether the first nodes of packages are equal.
    fn has_same_firsts(&self, other: &FeatureGraphData) -> bool
        ensures { IsTrue result ↔ (self.now.firsts ≡ other.now.firsts) }
    {
        let own = self.table.firsts.as_slice();
        let others = other.table.firsts.as_slice();
        same_numbers(own, others)
    }

    /// Returns whether the packages of nodes are equal.
    fn has_same_packages(&self, other: &FeatureGraphData) -> bool
        ensures { IsTrue result ↔ (self.now.packages ≡ other.now.packages) }
    {
        let own = self.table.packages.as_slice();
        let others = other.table.packages.as_slice();
        same_numbers(own, others)
    }

    /// Returns whether the edges are equal.
    fn has_same_edges(&self, other: &FeatureGraphData) -> bool
        ensures { IsTrue result ↔ (self.now.edges ≡ other.now.edges) }
    {
        same_pairs(&self.digraph, &other.digraph) && same_edges(&self.edges, &other.edges)
    }

    /// Returns whether the weak links and their gates are equal.
    fn has_same_gates(&self, other: &FeatureGraphData) -> bool
        ensures { IsTrue result ↔ (self.now.weak ≡ other.now.weak) }
    {
        let own = self.weak_links();
        let others = other.weak_links();
        same_gates(own, others)
    }

    /// Returns whether the warnings are equal.
    fn has_same_warnings(&self, other: &FeatureGraphData) -> bool
        ensures { IsTrue result ↔ (self.now.warnings ≡ other.now.warnings) }
    {
        let own = self.warnings();
        let others = other.warnings();
        same_warnings(own, others)
    }

    /// Returns whether the same nodes are on by default.
    fn has_same_defaults(&self, other: &FeatureGraphData) -> bool
        ensures { IsTrue result ↔ (self.now.defaults ≡ other.now.defaults) }
    {
        self.defaults.is_identical(&other.defaults)
    }

    /// Returns whether `self` and `other` are equal in each part.
    pub(crate) fn is_same(&self, other: &FeatureGraphData) -> bool
        ensures { IsTrue result ↔ AreAlike self.now other.now }
    {
        self.stamp() == other.stamp()
            && self.has_same_firsts(other)
            && self.has_same_packages(other)
            && self.has_same_edges(other)
            && self.has_same_gates(other)
            && self.has_same_warnings(other)
            && self.has_same_defaults(other)
    }
}
