//! The edges of a feature graph as a source for walks.
ghost use Rattle.std.specs.Prelude.{◌≡◌, ◌+◌, ◌^◌, ◌<◌, ℕ, List, AllPairs, Some, length, slice_get};
ghost use Rattle.std.specs.Option.{option_map_or};
ghost use Rattle.walk_engine.specs.Walks.{starting, told};
ghost use Rattle.feature_core.specs.Built.{built_edges};
ghost use Rattle.feature_edges.specs.Pairs.{IsBefore};
ghost use Rattle.feature_core.specs.Ways.{asked, content, gate_of, waits, Reading};
ghost use Rattle.feature_core.specs.inner.OpenWays.{open_way, open_ways};
ghost use Rattle.feature_core.specs.inner.Releases.{AreTied, released_place};
ghost use Rattle.feature_edges.specs.feature_links.Values.{edge_facts};
ghost use Rattle.walk_checks.specs.Tables.{Tells};

use crate::data::FeatureGraphData;
use crate::engine::{Ask, EdgeSource, Taken};
use crate::gates::{gate_of, released_at};
use digraphs::{Digraph, Edge};
use feature_edges::{DependencyDirection, EdgeList, FeatureEdge};
use indexmap::IndexMap;
use std::marker::Model;
use walk_checks::{EdgeTable, TableEdge};

/// Returns the offers of `edge` in `direction`.
fn offers_of(direction: DependencyDirection, edge: &FeatureEdge) -> Ask
    ensures { result ≡ asked direction (edge_facts edge.now) }
{
    match edge {
        FeatureEdge::FeatureToBase | FeatureEdge::NamedFeature => Ask::Nobody,
        FeatureEdge::DependenciesSection(_)
        | FeatureEdge::NamedFeatureDepColon(_)
        | FeatureEdge::NamedFeatureWithSlash(_) => Ask::Full,
        FeatureEdge::NamedFeatureWithWeakSlash(weak) => Ask::Weak {
            required: weak.required().get().is_some(),
            gated: waits(direction),
        },
    }
}

/// Returns whether optional halves wait for their gates in `direction`.
fn waits(direction: DependencyDirection) -> bool
    ensures { result ≡ waits direction }
{
    match direction {
        DependencyDirection::Forward => true,
        DependencyDirection::Reverse => false,
    }
}

/// The edges of a feature graph, followed in one direction. A contract sees the ways and the number of reads.
#[derive(Drop)]
pub struct Packed<'a> {
    digraph: &'a Digraph,
    edges: &'a EdgeList,
    // the gate of each weak link, and the gate and the number of each weak edge
    weak: &'a IndexMap<usize, usize>,
    released: &'a [(usize, usize)],
    direction: DependencyDirection,
    reads: u128,
}

impl<'a> Model for Packed<'a> {
    ghost use Rattle.feature_core.specs.inner.Releases.{AreTied};
    ghost use Rattle.feature_core.specs.Built.{built_edges};
    ghost use Rattle.feature_core.specs.Ways.{content, Reading};

    ghost Value = { Reading };

    ghost view = { λ p. record { holds = content p.direction p.digraph.now.nodes (built_edges p.digraph.now.edges p.edges.now) p.weak.now.entries; reads = p.reads } };

    ghost invariant = { λ p. AreTied p.digraph.now p.edges.now p.weak.now.entries p.released.now };
}

impl<'a> Packed<'a> {
    /// Returns the edges of `built`, followed in `direction`.
    pub fn new(built: &'a FeatureGraphData, direction: DependencyDirection) -> Self
        ensures { result ≡ record { holds = content direction (length built.now.packages) built.now.edges built.now.weak; reads = 0 } }
    {
        built.packed(direction)
    }

    /// Returns the edges of `digraph`, each with its offers, followed in `direction`.
    pub(crate) fn over(
        digraph: &'a Digraph,
        edges: &'a EdgeList,
        weak: &'a IndexMap<usize, usize>,
        released: &'a [(usize, usize)],
        direction: DependencyDirection,
    ) -> Self
        requires { AreTied digraph.now edges.now weak.now.entries released.now }
        ensures { result ≡ record { holds = content direction digraph.now.nodes (built_edges digraph.now.edges edges.now) weak.now.entries; reads = 0 } }
    {
        Packed {
            digraph,
            edges,
            weak,
            released,
            direction,
            reads: 0,
        }
    }

    /// Returns the number of reads so far.
    pub fn reads(&self) -> u128
        ensures { result ≡ self.now.reads }
    {
        self.reads
    }
}

/// Returns the number of edge `place`, from 0, among those that start at `node` in `direction`.
fn edge_number(
    digraph: &Digraph,
    direction: DependencyDirection,
    node: usize,
    place: usize,
) -> Option<usize>
    requires { node < digraph.now.nodes }
    ensures { result ≡ slice_get (starting (open_ways direction digraph.now) node) place }
{
    match direction {
        DependencyDirection::Forward => {
            let edges = digraph.out_edges(node);
            if place < edges.end - edges.start {
                Some(edges.start + place)
            } else {
                None
            }
        }
        DependencyDirection::Reverse => digraph.in_edge(node, place),
    }
}

/// Returns the number of edge `place`, from 0, among those that wait for `gate` in `direction`.
fn released_number(
    released: &[(usize, usize)],
    direction: DependencyDirection,
    gate: usize,
    place: usize,
) -> Option<usize>
    requires { AllPairs IsBefore released.now }
    ensures { result ≡ released_place released.now direction gate place }
{
    match direction {
        DependencyDirection::Forward => released_at(released, gate, place),
        DependencyDirection::Reverse => None,
    }
}

/// Returns the end that `edge` leads to in `direction`.
fn far_end(direction: DependencyDirection, edge: Edge) -> usize
    ensures { result ≡ (open_way direction edge).far }
{
    match direction {
        DependencyDirection::Forward => edge.to,
        DependencyDirection::Reverse => edge.from,
    }
}

/// Returns edge `edge` as a walk takes it: its number, the end that it leads to, and its offers.
fn taken(digraph: &Digraph, edges: &EdgeList, direction: DependencyDirection, edge: usize) -> Taken
    requires edge { edge < length digraph.now.edges }
    requires same { length edges.now ≡ length digraph.now.edges }
    ensures { (weak : List (ℕ × ℕ)) → Some result ≡ told (content direction digraph.now.nodes (built_edges digraph.now.edges edges.now) weak) (Some edge) }
{
    Taken {
        edge,
        far: far_end(direction, digraph.edge(edge)),
        ask: offers_of(direction, edges.get(edge)),
    }
}

impl EdgeSource for Packed<'_> {
    ghost content = { λ s. s.holds };

    ghost reads = { λ s. s.reads };

    fn edge_count(&self) -> usize {
        self.digraph.facts();
        self.digraph.edge_count()
    }

    fn take(&mut self, start: usize, place: usize) -> Option<Taken> {
        self.reads += 1;
        let edge = edge_number(self.digraph, self.direction, start, place)?;
        Some(taken(self.digraph, self.edges, self.direction, edge))
    }

    fn release(&mut self, gate: usize, place: usize) -> Option<Taken> {
        self.reads += 1;
        let edge = released_number(self.released, self.direction, gate, place)?;
        Some(taken(self.digraph, self.edges, self.direction, edge))
    }
}

/// Returns the gate of `edge` if it is weak, and otherwise 0.
fn gate_or_zero(weak: &IndexMap<usize, usize>, edge: &FeatureEdge) -> usize
    ensures { result ≡ option_map_or (λ gate. gate) (gate_of weak.now.entries (edge_facts edge.now)) 0 }
{
    gate_of(weak, edge).unwrap_or(0)
}

/// Returns the end that `edge` starts from in `direction`.
fn near_end(direction: DependencyDirection, edge: Edge) -> usize
    ensures { result ≡ (open_way direction edge).start }
{
    match direction {
        DependencyDirection::Forward => edge.from,
        DependencyDirection::Reverse => edge.to,
    }
}

/// Returns edge `number` as `direction` follows it.
fn table_edge(
    digraph: &Digraph,
    edges: &EdgeList,
    weak: &IndexMap<usize, usize>,
    direction: DependencyDirection,
    number: usize,
) -> TableEdge
    requires edge { number < length digraph.now.edges }
    requires same { length edges.now ≡ length digraph.now.edges }
    ensures { Tells (slice_get (content direction digraph.now.nodes (built_edges digraph.now.edges edges.now) weak.now.entries).ways number) (Some result) }
{
    let ends = digraph.edge(number);
    let edge = edges.get(number);
    TableEdge {
        start: near_end(direction, ends),
        far: far_end(direction, ends),
        ask: offers_of(direction, edge),
        gate: gate_or_zero(weak, edge),
    }
}

impl EdgeTable for Packed<'_> {
    ghost content = { λ s. s.holds };

    fn node_count(&self) -> usize {
        self.digraph.facts();
        self.digraph.node_count()
    }

    fn edge_count(&self) -> usize {
        self.digraph.edge_count()
    }

    fn edge(&self, number: usize) -> Option<TableEdge> {
        if number < self.digraph.edge_count() {
            Some(table_edge(self.digraph, self.edges, self.weak, self.direction, number))
        } else {
            None
        }
    }

    fn edge_from(&self, start: usize, place: usize) -> Option<usize> {
        edge_number(self.digraph, self.direction, start, place)
    }
}
