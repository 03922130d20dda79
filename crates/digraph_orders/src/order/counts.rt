//! Counts made before the first node is listed: the edges that enter each component, and those that hold each
//! node.
ghost use Rattle.std.specs.Prelude.{◌≡◌, ◌≢◌, ℕ, [], ◌+◌, ◌-◌, ◌<◌, ◌≤◌, length, slice_index, IfOk, false, replicate, set};
ghost use Rattle.digraphs.specs.Bits.{members};
ghost use Rattle.digraphs.specs.Graph.{IsDigraph};
ghost use Rattle.digraphs.specs.Rows.{places};
ghost use Rattle.digraph_orders.specs.inner.Groups.{AreGroups};
ghost use Rattle.digraph_orders.specs.inner.Plans.{IsSetup, IsPauseIn, IsEdge, AreEntering, AreDegrees, AreCounted, AreHolding, AreFirsts, HasRoom};

use crate::order::groups::Groups;
use crate::order::listing::{Plan, first_of};
use crate::order::queue::Queue;
use digraphs::{Digraph, Edge, IxBitSet, zeroes};
use std::alloc::{AllocError, Global};

/// Returns the edge with this number.
fn edge_at(graph: &Digraph, number: usize) -> Edge
    requires { number < length graph.now.edges }
    ensures { IsEdge graph.now number result.from result.to result.non_dev }
{
    graph.facts();
    graph.edge(number)
}

/// Subtracts 1 from the count of `to` if the edge leads from a node to itself.
fn leave_loop(counts: &mut Vec<u32>, from: usize, to: usize)
    requires node { to < length counts.old.items }
    requires positive { from ≡ to → 0 < slice_index counts.old.items to }
    ensures is { from ≡ to → counts.new.items ≡ set counts.old.items to (slice_index counts.old.items to - 1) }
    ensures other { from ≢ to → counts.new.items ≡ counts.old.items }
{
    if from == to {
        counts[to] -= 1;
    }
}

/// Counts edge `number` in `outside` if it enters another component, or in `held` if it holds its target. The edges
/// that enter a node that is alone are counted already, even those from itself.
fn count_edge(
    outside: &mut Vec<u32>,
    held: &mut Vec<u32>,
    graph: &Digraph,
    ranks: &[u32],
    groups: &Groups,
    number: usize,
)
    requires setup { IsSetup graph.now ranks.now }
    requires groups { AreGroups graph.now.nodes ranks.now groups.now }
    requires number { number < length graph.now.edges }
    requires counted { AreCounted graph.now ranks.now groups.now.several number outside.old.items }
    requires holding { AreHolding graph.now ranks.now number held.old.items }
    ensures counted { AreCounted graph.now ranks.now groups.now.several (number + 1) outside.new.items }
    ensures holding { AreHolding graph.now ranks.now (number + 1) held.new.items }
{
    graph.bounds();
    let edge = edge_at(graph, number);
    if groups.is_alone(ranks, edge.to, graph.node_count()) {
        leave_loop(outside, edge.from, edge.to);
        return;
    }
    let rank = ranks[edge.to] as usize;
    if ranks[edge.from] as usize != rank {
        outside[rank] += 1;
        return;
    }
    if !edge.non_dev {
        return;
    }
    if edge.from == edge.to {
        return;
    }
    held[edge.to] += 1;
}

/// Adds the first node of component `rank` to `starts`, if the component isn't empty and no edge enters it.
fn add_start(
    starts: &mut Queue,
    row: &[u32],
    ranks: &[u32],
    outside: &[u32],
    held: &[u32],
    rank: usize,
)
    requires rank { rank < length outside.now }
    requires row { row.now ≡ places rank ranks.now }
    requires nodes { (j : ℕ) → j < length row.now → slice_index row.now j < length held.now }
    requires firsts { AreFirsts ranks.now outside.now held.now rank (members starts.old) }
    requires room { length held.now ≤ length starts.old }
    ensures firsts { AreFirsts ranks.now outside.now held.now (rank + 1) (members starts.new) }
    ensures room { length starts.new ≡ length starts.old }
{
    let _ranks = ranks.len();
    if outside[rank] != 0 {
        return;
    }
    if row.is_empty() {
        return;
    }
    starts.push(first_of(row, held));
}

/// Returns the number of edges that enter each node that is alone in its component, and 0 for the other nodes.
fn lone_degrees(
    alloc: Global,
    graph: &Digraph,
    ranks: &[u32],
    groups: &Groups,
) -> Result<Vec<u32>, AllocError>
    requires { AreGroups graph.now.nodes ranks.now groups.now }
    ensures { IfOk result (λ degrees. AreDegrees graph.now groups.now.several graph.now.nodes degrees.items) }
{
    graph.bounds();
    let mut degrees = zeroes(alloc, graph.node_count())?;
    for node in 0..graph.node_count() {
        if groups.is_alone(ranks, node, graph.node_count()) {
            degrees[node] = graph.in_degree(node) as u32;
        }
    }
    Ok(degrees)
}

/// Returns the number of edges that enter each component, and the number that hold each node.
fn count_edges(
    alloc: Global,
    graph: &Digraph,
    ranks: &[u32],
    groups: &Groups,
) -> Result<(Vec<u32>, Vec<u32>), AllocError>
    requires setup { IsSetup graph.now ranks.now }
    requires groups { AreGroups graph.now.nodes ranks.now groups.now }
    ensures entering { IfOk result (λ counts. AreEntering graph.now ranks.now (length graph.now.edges) counts.0.items) }
    ensures holding { IfOk result (λ counts. AreHolding graph.now ranks.now (length graph.now.edges) counts.1.items) }
{
    let mut outside = lone_degrees(alloc, graph, ranks, groups)?;
    let mut held = zeroes(alloc, graph.node_count())?;
    for number in 0..graph.edge_count() {
        count_edge(&mut outside, &mut held, graph, ranks, groups, number);
    }
    Ok((outside, held))
}

/// Returns the first nodes of the components that no edge enters.
fn first_starts(
    alloc: Global,
    nodes: usize,
    ranks: &[u32],
    groups: &Groups,
    outside: &[u32],
    held: &[u32],
) -> Result<Queue, AllocError>
    requires ranks { length ranks.now ≡ nodes }
    requires outside { length outside.now ≡ nodes }
    requires held { length held.now ≡ nodes }
    requires groups { AreGroups nodes ranks.now groups.now }
    ensures firsts { IfOk result (λ starts. AreFirsts ranks.now outside.now held.now nodes (members starts)) }
    ensures room { IfOk result (λ starts. length starts ≡ nodes) }
{
    let mut starts = Queue::empty(alloc, nodes)?;
    for rank in 0..nodes {
        let row = groups.row(ranks, rank, nodes);
        add_start(&mut starts, row, ranks, outside, held, rank);
    }
    Ok(starts)
}

/// Returns an empty list with room for `nodes` nodes, and the empty set of bound `nodes`.
fn nothing_listed(alloc: Global, nodes: usize) -> Result<(Vec<usize>, IxBitSet), AllocError>
    ensures list { IfOk result (λ nothing. nothing.0.items ≡ []) }
    ensures set { IfOk result (λ nothing. nothing.1 ≡ replicate nodes false) }
{
    let list = Vec::with_capacity(alloc, nodes)?;
    let done = IxBitSet::empty(alloc, nodes)?;
    Ok((list, done))
}

/// Returns the plan in which no node is listed.
pub(crate) fn first_plan(
    alloc: Global,
    graph: &Digraph,
    ranks: &[u32],
    groups: &Groups,
) -> Result<Plan, AllocError>
    requires setup { IsSetup graph.now ranks.now }
    requires groups { AreGroups graph.now.nodes ranks.now groups.now }
    ensures pause { IfOk result (λ plan. IsPauseIn graph.now ranks.now plan) }
    ensures room { IfOk result (λ plan. HasRoom plan) }
{
    let nodes = graph.node_count();
    let counts = count_edges(alloc, graph, ranks, groups)?;
    let starts = first_starts(alloc, nodes, ranks, groups, &counts.0, &counts.1)?;
    let ready = Queue::empty(alloc, nodes)?;
    let (listed, done) = nothing_listed(alloc, nodes)?;
    Ok(Plan {
        listed,
        done,
        outside: counts.0,
        held: counts.1,
        starts,
        ready,
        next: 0,
    })
}
