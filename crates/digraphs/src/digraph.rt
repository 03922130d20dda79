//! A digraph whose edges are indexed by source and by target.
ghost use Rattle.std.specs.List.{range_with_len};
ghost use Rattle.std.specs.Prelude.{◌≡◌, ℕ, ◌+◌, ◌-◌, ◌^◌, ◌<◌, ◌≤◌, length, slice_get, Some, None, IfOk, IfErr, IfSome, IfNone, IsTrue, ◌↔◌};
ghost use Rattle.digraphs.specs.Graph.{IsDigraph, IsNarrow, IsRefused, IsEdgeAt, IsBefore, sources, targets};
ghost use Rattle.digraphs.specs.Paths.{HasEdge};
ghost use Rattle.digraphs.specs.Rows.{places};
ghost use Rattle.digraphs.specs.PackedRows.{IsPacked};

mod begins;
mod columns;

use crate::rows::{Keys, Rows, pack_rows};
pub use begins::begin_up_to;
use begins::source_begins;
pub use columns::EdgeColumns;
use std::alloc::{AllocError, Global};
use std::marker::Model;
use std::ops::Range;

/// The most nodes: twice as many fit in 32 bits.
const MOST_NODES: usize = 2147483647;

/// The most edges: as many fit in 32 bits.
const MOST_EDGES: usize = 4294967295;

/// An edge of a digraph. `non_dev` is false if the edge is dev-only. Only an edge with `non_dev` orders its two
/// ends inside a component.
#[derive(Clone, Copy, Debug, Drop, PartialEq, Eq)]
pub struct Edge {
    pub from: usize,
    pub to: usize,
    pub non_dev: bool,
}

/// Reasons why a list of edges isn't a digraph.
#[derive(Clone, Copy, Debug, Drop, PartialEq, Eq)]
pub enum DigraphError {
    /// An end of an edge isn't below the number of nodes.
    BadNode,
    /// An edge isn't after the one before it, by source and then by target.
    Unsorted,
    /// An allocation failed.
    Memory,
}

/// A digraph. Its nodes are the numbers below a count; its edges ascend strictly by source and then by target.
#[derive(Debug)]
pub struct Digraph {
    nodes: usize,
    edges: EdgeColumns,
    // the first edge number of each source, then the number of edges
    begins: Vec<u32>,
    inward: Rows,
}

impl Drop for Digraph {
    // Written out, so that a crate above calls it. A derived drop is proved in each crate that drops a value, with those of all fields.
    fn drop(self) {
        let Digraph {
            nodes: _nodes,
            edges: _edges,
            begins: _begins,
            inward: _inward,
        } = self;
    }
}

impl Model for Digraph {
    ghost use Rattle.digraphs.specs.Graph.{Graph, IsDigraph, IsNarrow, sources, targets};
    ghost use Rattle.digraphs.specs.PackedRows.{AreAllBegun, IsPacked};

    ghost Value = { Graph };

    ghost view = { λ d. record { nodes = d.nodes; edges = d.edges } };

    ghost invariant = { λ d.
        IsDigraph (record { nodes = d.nodes; edges = d.edges })
        × AreAllBegun d.nodes (sources d.edges) d.begins.items
        × IsPacked d.nodes (targets d.edges) d.inward.begins.items d.inward.numbers.items
        × IsNarrow (record { nodes = d.nodes; edges = d.edges }) };
}

impl Digraph {
    /// Builds the digraph of `nodes` nodes and `edges`. Returns `BadNode` or `Unsorted` for the first edge with
    /// a fault; the ends of an edge are checked before its place.
    ///
    /// Returns `Memory` if an allocation fails, or if there are more than 2147483647 nodes or 4294967295 edges
    /// ([limits](../../../docs/DIFFERENCES.md#limits)). Such a digraph would take over 17 gigabytes.
    pub fn new(alloc: Global, nodes: usize, edges: &[Edge]) -> Result<Digraph, DigraphError>
        ensures made { IfOk result (λ g. g ≡ record { nodes = nodes; edges = edges.now }) }
        ensures sound { IfOk result (λ g. IsDigraph g) }
        ensures refused { IfErr result (λ e. IsRefused nodes edges.now e) }
    {
        if let Some(fault) = first_fault(nodes, edges) {
            return Err(fault);
        }
        match Digraph::copied(alloc, nodes, edges) {
            Ok(graph) => Ok(graph),
            Err(_) => Err(DigraphError::Memory),
        }
    }

    /// Builds the digraph of `edges`, which have no fault by the precondition and aren't copied. Returns
    /// `AllocError` where `new` returns `Memory` ([limits](../../../docs/DIFFERENCES.md#limits)).
    pub fn from_columns(
        alloc: Global,
        nodes: usize,
        edges: EdgeColumns,
    ) -> Result<Digraph, AllocError>
        requires sound { IsDigraph (record { nodes = nodes; edges = edges }) }
        ensures { IfOk result (λ g. g ≡ record { nodes = nodes; edges = edges }) }
    {
        if nodes > MOST_NODES || edges.len() > MOST_EDGES {
            return Err(AllocError);
        }
        let inward = inward_rows(alloc, nodes, &edges)?;
        let begins = source_begins(alloc, nodes, &edges)?;
        Ok(Digraph {
            nodes,
            edges,
            begins,
            inward,
        })
    }

    fn copied(alloc: Global, nodes: usize, edges: &[Edge]) -> Result<Digraph, AllocError>
        requires { IsDigraph (record { nodes = nodes; edges = edges.now }) }
        ensures { IfOk result (λ g. g ≡ record { nodes = nodes; edges = edges.now }) }
    {
        let columns = EdgeColumns::copied(alloc, edges)?;
        let graph = Digraph::from_columns(alloc, nodes, columns)?;
        Ok(graph)
    }

    /// Returns the number of nodes.
    pub fn node_count(&self) -> usize
        ensures { result ≡ self.now.nodes }
    {
        self.nodes
    }

    /// Returns the number of edges.
    pub fn edge_count(&self) -> usize
        ensures { result ≡ length self.now.edges }
    {
        self.edges.len()
    }

    /// Does nothing. The contract states the invariant: each digraph meets `IsDigraph`.
    pub fn facts(&self)
        ensures { IsDigraph self.now }
    {
        let _nodes = self.nodes;
    }

    /// Does nothing. The contract states the bounds of each digraph: it has at most 2147483647 nodes and 4294967295 edges.
    pub fn bounds(&self)
        ensures { IsNarrow self.now }
    {
        let _nodes = self.nodes;
    }

    /// Returns the edge with this number.
    pub fn edge(&self, number: usize) -> Edge
        requires { number < length self.now.edges }
        ensures { slice_get self.now.edges number ≡ Some result }
    {
        self.edges.edge(number)
    }

    /// Returns the number of the edge from `from` to `to`, or `None` if there is none. Takes logarithmic time.
    pub fn edge_between(&self, from: usize, to: usize) -> Option<usize>
        ensures some { IfSome result (IsEdgeAt self.now.edges from to) }
        ensures none { IfNone result (¬ HasEdge self.now.edges from to) }
    {
        let mut low = 0;
        let mut high = self.edges.len();
        while low < high {
            let middle = low + (high - low) / 2;
            let edge = self.edges.edge(middle);
            if is_before((edge.from, edge.to), (from, to)) {
                low = middle + 1;
            } else if is_before((from, to), (edge.from, edge.to)) {
                high = middle;
            } else {
                return Some(middle);
            }
        }
        None
    }

    /// Returns the numbers of the edges that leave `node`. They form a range because edges ascend by source.
    pub fn out_edges(&self, node: usize) -> Range<usize>
        requires { node < self.now.nodes }
        ensures numbers { range_with_len result.start (result.end - result.start) ≡ places node (sources self.now.edges) }
        ensures ascends { result.start ≤ result.end }
        ensures within { result.end ≤ length self.now.edges }
    {
        self.begins[node] as usize..self.begins[node + 1] as usize
    }

    /// Returns the numbers of the edges that enter `node`, ascending.
    pub fn in_edges(&self, node: usize) -> &[u32]
        requires { node < self.now.nodes }
        ensures { result.now ≡ places node (targets self.now.edges) }
    {
        let begins = &self.inward.begins;
        &self.inward.numbers[begins[node] as usize..begins[node + 1] as usize]
    }

    /// Returns the number of edges that enter `node`.
    pub fn in_degree(&self, node: usize) -> usize
        requires { node < self.now.nodes }
        ensures { result ≡ length (places node (targets self.now.edges)) }
    {
        self.in_edges(node).len()
    }

    /// Returns edge `place`, from 0, of those that enter `node`, by their numbers; `None` if there are fewer.
    pub fn in_edge(&self, node: usize, place: usize) -> Option<usize>
        requires { node < self.now.nodes }
        ensures number { result ≡ slice_get (places node (targets self.now.edges)) place }
        ensures few { IfSome result (λ _. place + 1 < 2 ^ 64) }
    {
        let numbers = self.in_edges(node);
        if place < numbers.len() {
            Some(numbers[place] as usize)
        } else {
            None
        }
    }
}

// Returns the first fault of `edges`: `BadNode` or `Unsorted`, never `Memory`.
fn first_fault(nodes: usize, edges: &[Edge]) -> Option<DigraphError>
    ensures some { IfSome result (λ e. IsRefused nodes edges.now e) }
    ensures none { IfNone result (IsDigraph (record { nodes = nodes; edges = edges.now })) }
{
    for place in 0..edges.len() {
        let edge = edges[place];
        if edge.from >= nodes || edge.to >= nodes {
            return Some(DigraphError::BadNode);
        }
        if place > 0 {
            let last = edges[place - 1];
            if !is_before((last.from, last.to), (edge.from, edge.to)) {
                return Some(DigraphError::Unsorted);
            }
        }
    }
    None
}

// Returns true if `first` is before `other` in lexicographic order.
fn is_before(first: (usize, usize), other: (usize, usize)) -> bool
    ensures { IsTrue result ↔ IsBefore first.0 first.1 other.0 other.1 }
{
    first.0 < other.0 || (first.0 == other.0 && first.1 < other.1)
}

// The targets of `edges`, in their order.
#[derive(Drop)]
struct Targets<'a> {
    edges: &'a EdgeColumns,
}

impl<'a> Keys for Targets<'a> {
    ghost list = { λ t. targets t.edges.now };

    fn len(&self) -> usize {
        self.edges.len()
    }

    fn at(&self, place: usize) -> usize {
        self.edges.edge(place).to
    }
}

// Returns the numbers of the edges that enter each node.
fn inward_rows(alloc: Global, nodes: usize, edges: &EdgeColumns) -> Result<Rows, AllocError>
    requires { IsDigraph (record { nodes = nodes; edges = edges.now }) }
    ensures { IfOk result (λ rows. IsPacked nodes (targets edges.now) rows.begins.items rows.numbers.items) }
{
    pack_rows(alloc, nodes, &Targets { edges })
}
