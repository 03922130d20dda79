//! The edges of a package graph and its warnings, package by package.
ghost use Rattle.std.specs.Prelude.{◌≡◌, ◌⊎◌, ◌++◌, ◌∷◌, [], ℕ, ◌+◌, ◌<◌, Contains, IfOk, List, None, OnOk, Some, length, map, slice_get};
ghost use Rattle.indexmap.specs.IndexMap.{keys};
ghost use Rattle.feature_edges.specs.declared.candidate.Key.{Key as KeyValue};
ghost use Rattle.feature_edges.specs.EdgeEnds.{pairs_of, built_edges, end_of};
ghost use Rattle.feature_edges.specs.Edges.{AreBuilt};
ghost use Rattle.feature_links.specs.Facts.{EdgeFacts};
ghost use Rattle.feature_edges.specs.inner.Made.{IsAdded, IsAppended};
ghost use Rattle.feature_edges.specs.inner.Keys.{AreLeast};
ghost use Rattle.feature_edges.specs.inner.Made.{IsMaterial, IsRun, AreMade, AreMadeBefore, AreMadeBelow, AreWholeKeys, edge_end};
ghost use Rattle.feature_links.specs.NamedLinks.{AreNamedLinks};
ghost use Rattle.feature_edges.specs.inner.Collects.{AreWarningsBelow, of_features};
ghost use Rattle.feature_edges.specs.DefaultNodes.{AreDefaultNodes};
ghost use Rattle.feature_edges.specs.Nodes.{features_in, first_node, first_nodes, node_packages};
ghost use Rattle.feature_edges.specs.Pairs.{IsPairList};
ghost use Rattle.feature_edges.specs.inner.Parts.{IsOfTables};
ghost use Rattle.feature_edges.specs.Warnings.{warnings, warnings_in};
ghost use Rattle.feature_links.specs.Values.{edge_facts};
ghost use Rattle.guppy_packages.specs.Tables.{AreTables, Tables};

use crate::alike_keys::are_alike;
use crate::candidate::{CandidateKind, Key, split_run};
use crate::collect::{Collected, collect_around, collect_feature};
use crate::default_nodes::default_nodes;
use crate::gate_nodes::gate_nodes;
use crate::gates::note_gate;
use crate::make::{Material, edge_of};
use crate::node_numbers::Numbers;
use crate::nodes::NodeTable;
use crate::pool::EdgeList;
use crate::warnings::FeatureGraphWarning;
use digraphs::{Digraph, Edge, EdgeColumns};
use feature_links::{FeatureEdge, LinkGroups, SharedStatuses};
use guppy_packages::PackageGraph;
use indexmap::IndexMap;
use std::alloc::{AllocError, Global};

/// The edges, sorted by source and then by target, the gate of each weak link by its package link, and the node of each package's
/// feature `default`, or 0 if it has none.
#[derive(Drop)]
pub struct EdgeTable {
    pub digraph: Digraph,
    pub edges: EdgeList,
    pub weak: IndexMap<usize, usize>,
    pub defaults: Vec<u32>,
}

/// Returns the digraph's edge of `key`, whose built edge is `edge`.
fn edge_end(key: Key, edge: &FeatureEdge) -> Edge
    ensures { result ≡ edge_end key (edge_facts edge.now) }
{
    Edge {
        from: key.from as usize,
        to: key.to as usize,
        non_dev: !edge.is_dev_only(),
    }
}

/// The edges of keys, one after the other: their values, their ends, and the gate of each weak link. `last` is the last key whose edge
/// is its own, with the edge's number.
#[derive(Drop)]
pub(crate) struct MadeEdges {
    edges: EdgeList,
    ends: EdgeColumns,
    weak: IndexMap<usize, usize>,
    last: Option<(Key, usize)>,
}

/// Buffers that packages share: one node's keys beside the warnings so far, and keys that wait for those of features.
#[derive(Drop)]
struct Room {
    collected: Collected,
    later: Vec<Key>,
}

impl Room {
    /// Returns empty buffers.
    fn new(alloc: Global) -> Room
        ensures { (t : Tables) → AreWarningsBelow t 0 result.collected }
    {
        Room {
            collected: Collected::new(alloc),
            later: Vec::new(alloc),
        }
    }
}

impl MadeEdges {
    /// Builds and appends the edge of `key`, whose weak link is noted. `run` has the keys of its pair.
    fn make(
        &mut self,
        alloc: Global,
        material: Material<'_, '_>,
        key: Key,
        run: &[Key],
    ) -> Result<(), AllocError>
        requires material { IsMaterial material }
        requires of_tables { IsOfTables material.numbers.graph.now key }
        requires run { IsRun material.numbers.graph.now key run.now }
        requires noted { key.kind ≡ CandidateKind.SlashWeak → Contains (keys self.now.weak) key.source }
        ensures { OnOk result (IsAdded material.entry.numbers.graph.now key self.old self.new) }
    {
        let edge = edge_of(alloc, material, &self.weak, key, run)?;
        self.ends.push(edge_end(key, &edge))?;
        self.edges.push(edge)?;
        Ok(())
    }

    /// Appends edge `number` again, as the edge of `key`.
    fn repeat(&mut self, key: Key, number: usize) -> Result<(), AllocError>
        requires { number < length self.now.edges }
        ensures { OnOk result ((f : EdgeFacts) → slice_get self.old.edges number ≡ Some f → IsAppended key f self.old self.new) }
    {
        let end = edge_end(key, self.edges.get(number));
        self.ends.push(end)?;
        self.edges.repeat(number)?;
        Ok(())
    }

    /// Appends the edge of `key`, which is unconditional.
    fn add_unconditional(&mut self, key: Key) -> Result<(), AllocError>
        requires { (key.kind ≡ CandidateKind.FeatureToBase) ⊎ (key.kind ≡ CandidateKind.NamedFeature) }
        ensures { OnOk result ((t : Tables) → AreTables t → IsOfTables t key → IsAdded t key self.old self.new) }
    {
        self.ends.push(Edge {
            from: key.from as usize,
            to: key.to as usize,
            non_dev: true,
        })?;
        match key.kind {
            CandidateKind::FeatureToBase => self.edges.push_base(),
            _ => self.edges.push_named(),
        }
    }

    /// Appends the edge of `key`, and notes its weak link. `run` has the keys of its pair.
    fn add_own(
        &mut self,
        alloc: Global,
        material: Material<'_, '_>,
        key: Key,
        run: &[Key],
    ) -> Result<(), AllocError>
        requires material { IsMaterial material }
        requires of_tables { IsOfTables material.numbers.graph.now key }
        requires run { IsRun material.numbers.graph.now key run.now }
        ensures { OnOk result ((done : List KeyValue) → AreMade material.entry.numbers.graph.now done self.old → AreMade material.entry.numbers.graph.now (done ++ key ∷ []) self.new) }
    {
        note_gate(&mut self.weak, material.numbers, material.gates, key)?;
        self.last = Some((key, self.edges.len()));
        self.make(alloc, material, key, run)
    }

    /// Appends the edge of `key`. `run` has the keys of its pair. If the last key with an edge of its own is alike, that edge is
    /// repeated.
    fn add(
        &mut self,
        alloc: Global,
        material: Material<'_, '_>,
        key: Key,
        run: &[Key],
    ) -> Result<(), AllocError>
        requires material { IsMaterial material }
        requires of_tables { IsOfTables material.numbers.graph.now key }
        requires run { IsRun material.numbers.graph.now key run.now }
        requires made { (done : List KeyValue) × AreMade material.numbers.graph.now done self.old }
        ensures { OnOk result ((done : List KeyValue) → AreMade material.entry.numbers.graph.now done self.old → AreMade material.entry.numbers.graph.now (done ++ key ∷ []) self.new) }
    {
        material.numbers.graph.facts();
        if key.kind.is_unconditional() {
            return self.add_unconditional(key);
        }
        if let Some(last) = self.last
            && are_alike(material.numbers, last.0, key)
        {
            return self.repeat(key, last.1);
        }
        self.add_own(alloc, material, key, run)
    }

    /// Appends the edges of sorted keys, one for each pair.
    fn add_all(
        &mut self,
        alloc: Global,
        material: Material<'_, '_>,
        keys: &[Key],
    ) -> Result<(), AllocError>
        requires material { IsMaterial material }
        requires keys { AreWholeKeys material.numbers.graph.now keys.now }
        requires made { (done : List KeyValue) × AreMade material.numbers.graph.now done self.old }
        ensures { OnOk result ((kept : List KeyValue) × AreLeast keys.now kept × ((done : List KeyValue) → AreMade material.entry.numbers.graph.now done self.old → AreMade material.entry.numbers.graph.now (done ++ kept) self.new)) }
    {
        let mut rest = keys;
        while rest.len() > 0 {
            let key = rest[0];
            let (run, later) = split_run(rest, key);
            self.add(alloc, material, key, run)?;
            rest = later;
        }
        Ok(())
    }

    /// Appends the edges of the named features of package `ix`, and the warnings of their items.
    fn add_features(
        &mut self,
        alloc: Global,
        material: Material<'_, '_>,
        room: &mut Room,
        ix: usize,
    ) -> Result<(), AllocError>
        requires material { IsMaterial material }
        requires package { ix < length material.numbers.graph.now.packages }
        requires made { AreMadeBefore material.numbers.graph.now (first_node material.numbers.graph.now ix + 1) self.old }
        ensures made { OnOk result (AreMadeBefore material.entry.numbers.graph.now (first_node material.entry.numbers.graph.now ix + 1 + features_in material.entry.numbers.graph.now ix) self.new) }
        ensures items { OnOk result (warnings_in room.new.collected.item_warnings ≡ warnings_in room.old.collected.item_warnings ++ of_features material.entry.numbers.graph.now ix) }
        ensures names { OnOk result (warnings_in room.new.collected.name_warnings ≡ warnings_in room.old.collected.name_warnings) }
        ensures later { room.new.later ≡ room.old.later }
    {
        let features = material.numbers.graph.package(ix).named_features();
        for place in 0..features.len() {
            collect_feature(&mut room.collected, alloc, material, ix, place)?;
            self.add_all(alloc, material, &room.collected.keys)?;
        }
        Ok(())
    }

    /// Appends the edges of the nodes of package `ix`, in the order of the nodes, and its warnings.
    fn add_package(
        &mut self,
        alloc: Global,
        material: Material<'_, '_>,
        room: &mut Room,
        ix: usize,
    ) -> Result<(), AllocError>
        requires material { IsMaterial material }
        requires package { ix < length material.numbers.graph.now.packages }
        requires made { AreMadeBelow material.numbers.graph.now ix self.old }
        requires warnings { AreWarningsBelow material.numbers.graph.now ix room.old.collected }
        ensures made { OnOk result (AreMadeBelow material.entry.numbers.graph.now (ix + 1) self.new) }
        ensures warnings { OnOk result (AreWarningsBelow material.entry.numbers.graph.now (ix + 1) room.new.collected) }
    {
        material.numbers.graph.facts();
        collect_around(&mut room.collected, &mut room.later, alloc, material, ix)?;
        self.add_all(alloc, material, &room.collected.keys)?;
        self.add_features(alloc, material, room, ix)?;
        self.add_all(alloc, material, &room.later)?;
        Ok(())
    }

    /// Appends the edges of the nodes of all packages, and the warnings.
    fn add_packages(
        &mut self,
        alloc: Global,
        material: Material<'_, '_>,
        room: &mut Room,
    ) -> Result<(), AllocError>
        requires material { IsMaterial material }
        requires made { AreMadeBelow material.numbers.graph.now 0 self.old }
        requires warnings { AreWarningsBelow material.numbers.graph.now 0 room.old.collected }
        ensures made { OnOk result (AreMadeBelow material.entry.numbers.graph.now (length material.entry.numbers.graph.now.packages) self.new) }
        ensures warnings { OnOk result (AreWarningsBelow material.entry.numbers.graph.now (length material.entry.numbers.graph.now.packages) room.new.collected) }
    {
        for ix in 0..material.numbers.graph.package_count() {
            self.add_package(alloc, material, room, ix)?;
        }
        Ok(())
    }

    /// Appends the edges of the nodes of all packages to an empty list, and returns the warnings.
    fn fill(
        &mut self,
        alloc: Global,
        material: Material<'_, '_>,
    ) -> Result<Vec<FeatureGraphWarning>, AllocError>
        requires material { IsMaterial material }
        requires made { AreMadeBelow material.numbers.graph.now 0 self.old }
        ensures made { OnOk result (AreMadeBelow material.entry.numbers.graph.now (length material.entry.numbers.graph.now.packages) self.new) }
        ensures warnings { IfOk result (λ found. warnings_in found ≡ warnings material.entry.numbers.graph.now) }
    {
        material.numbers.graph.facts();
        let mut room = Room::new(alloc);
        self.add_packages(alloc, material, &mut room)?;
        room.collected.into_warnings()
    }
}

/// Returns no edges, with capacity for `room` of them and for `own` that differ from each other.
fn edges_with_capacity(alloc: Global, room: usize, own: usize) -> Result<MadeEdges, AllocError>
    ensures edges { IfOk result (λ made. made.edges ≡ []) }
    ensures ends { IfOk result (λ made. made.ends ≡ []) }
    ensures weak { IfOk result (λ made. made.weak.entries ≡ []) }
    ensures last { IfOk result (λ made. made.last ≡ None) }
{
    let edges = EdgeList::with_capacity(alloc, room, own)?;
    let ends = EdgeColumns::with_capacity(alloc, room)?;
    Ok(MadeEdges {
        edges,
        ends,
        weak: IndexMap::new(alloc),
        last: None,
    })
}

/// The capacity up to which a refused request means that memory ran out.
const LITTLE_ROOM: usize = 1_024;

/// Returns the number of items of all features.
fn item_count(graph: &PackageGraph) -> usize {
    let mut count: usize = 0;
    for ix in 0..graph.package_count() {
        for feature in graph.package(ix).named_features() {
            count = count.saturating_add(feature.item_count());
        }
    }
    count
}

/// Returns no edges, with capacity for one edge per node and per item and four per link, and for three distinct edges per link. Most
/// graphs need no more, and unused capacity is never touched. If that much is refused, the capacity is small.
fn no_edges(alloc: Global, nodes: usize, graph: &PackageGraph) -> Result<MadeEdges, AllocError>
    ensures edges { IfOk result (λ made. made.edges ≡ []) }
    ensures ends { IfOk result (λ made. made.ends ≡ []) }
    ensures weak { IfOk result (λ made. made.weak.entries ≡ []) }
    ensures last { IfOk result (λ made. made.last ≡ None) }
{
    let links = graph.link_count();
    let own = links.saturating_mul(3);
    let room = nodes
        .saturating_add(item_count(graph))
        .saturating_add(links.saturating_mul(4));
    match edges_with_capacity(alloc, room, own) {
        Err(_) if room > LITTLE_ROOM => edges_with_capacity(alloc, 0, 0),
        made => made,
    }
}

/// Returns the edges of the nodes of all packages, and the warnings.
fn made_edges(
    alloc: Global,
    material: Material<'_, '_>,
) -> Result<(MadeEdges, Vec<FeatureGraphWarning>), AllocError>
    requires { IsMaterial material }
    ensures made { IfOk result (λ m. AreMadeBelow material.entry.numbers.graph.now (length material.entry.numbers.graph.now.packages) m.0) }
    ensures warnings { IfOk result (λ m. warnings_in m.1 ≡ warnings material.entry.numbers.graph.now) }
{
    let mut made = no_edges(alloc, material.packages.len(), material.numbers.graph)?;
    let warnings = made.fill(alloc, material)?;
    Ok((made, warnings))
}

/// Returns the edges of a package graph whose nodes are in `table`, and its warnings. Returns `AllocError` if an allocation fails, or
/// the graph is over a [limit](../../../docs/DIFFERENCES.md#limits).
pub fn edge_table(
    alloc: Global,
    numbers: Numbers<'_>,
    table: &NodeTable,
    groups: &LinkGroups<'_>,
) -> Result<(EdgeTable, Vec<FeatureGraphWarning>), AllocError>
    requires firsts { table.now.firsts.items ≡ first_nodes numbers.graph.now }
    requires packages { table.now.packages.items ≡ node_packages numbers.graph.now }
    requires links { AreNamedLinks numbers.graph.now groups.now }
    ensures nodes { IfOk result (λ e. e.0.digraph.nodes ≡ length table.now.packages.items) }
    ensures pairs { IfOk result (λ e. IsPairList numbers.entry.graph.now (pairs_of e.0.digraph.edges)) }
    ensures long { IfOk result (λ e. length e.0.edges ≡ length e.0.digraph.edges) }
    ensures ends { IfOk result (λ e. e.0.digraph.edges ≡ map end_of (built_edges e.0.digraph.edges e.0.edges)) }
    ensures edges { IfOk result (λ e. AreBuilt numbers.entry.graph.now (built_edges e.0.digraph.edges e.0.edges) e.0.weak.entries) }
    ensures defaults { IfOk result (λ e. AreDefaultNodes numbers.entry.graph.now e.0.defaults.items) }
    ensures warnings { IfOk result (λ e. warnings_in e.1 ≡ warnings numbers.entry.graph.now) }
{
    numbers.graph.facts();
    let defaults = default_nodes(alloc, numbers)?;
    let gates = gate_nodes(alloc, numbers)?;
    let statuses = SharedStatuses::new(alloc)?;
    let material = Material {
        numbers,
        packages: table.packages.as_slice(),
        groups,
        statuses: &statuses,
        defaults: defaults.as_slice(),
        gates: gates.as_slice(),
    };
    let (made, warnings) = made_edges(alloc, material)?;
    drop(gates);
    let MadeEdges {
        edges,
        ends,
        weak,
        ..
    } = made;
    let digraph = Digraph::from_columns(alloc, table.packages.len(), ends)?;
    let edge_table = EdgeTable {
        digraph,
        edges,
        weak,
        defaults,
    };
    Ok((edge_table, warnings))
}
