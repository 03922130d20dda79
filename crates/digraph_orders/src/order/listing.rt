//! The state between two nodes of the order, and the steps that list the next one.
ghost use Rattle.std.specs.Prelude.{◌≡◌, ◌≢◌, ℕ, [], ◌∷◌, ◌++◌, ◌+◌, ◌-◌, ◌<◌, ◌≤◌, length, slice_index, slice_set, IfSome, IfNone, IfOk, OnOk, Contains, set, true, false};
ghost use Rattle.digraphs.specs.Graph.{IsDigraph, sources};
ghost use Rattle.digraphs.specs.Bits.{has, members};
ghost use Rattle.digraphs.specs.Rows.{places};
ghost use Rattle.digraph_orders.specs.inner.Groups.{AreGroups};
ghost use Rattle.digraph_orders.specs.Orders.{IsOrder};
ghost use Rattle.digraph_orders.specs.inner.Heads.{IsDone};
ghost use Rattle.digraph_orders.specs.inner.Plans.{TakesFresh, IsFirst, IsFreshPlace, StartsGrow, AreReady, Waits, IsSetup, IsOutEdge, IsAtIn, IsWithinIn, IsChosenIn, IsPauseIn, HasRoom, RowWaits};
ghost use Rattle.digraph_orders.specs.inner.Queues.{Joins};

use crate::order::groups::Groups;
use crate::order::queue::Queue;
use digraphs::{Digraph, Edge, IxBitSet};
use std::alloc::AllocError;

/// The state between two nodes of the order.
#[derive(Drop)]
pub(crate) struct Plan {
    /// The nodes listed so far.
    pub(crate) listed: Vec<usize>,
    /// The same nodes as a set.
    pub(crate) done: IxBitSet,
    /// Per component: the number of edges that enter it from nodes that aren't listed.
    pub(crate) outside: Vec<u32>,
    /// Per node: the number of edges that hold it.
    pub(crate) held: Vec<u32>,
    /// The heads of the components that are free to begin.
    pub(crate) starts: Queue,
    /// The nodes of the current component that aren't held.
    pub(crate) ready: Queue,
    /// A place in the row of the current component. Each node before it is listed.
    pub(crate) next: usize,
}

/// Removes numbers from `queue` up to the least that isn't in `done`, and returns that one.
fn pop_fresh(queue: &mut Queue, done: &IxBitSet) -> Option<usize>
    requires { (y : ℕ) → Contains (members queue.old) y → y < length done.now }
    ensures none { IfNone result ((y : ℕ) → Contains (members queue.old) y → IsDone done.now y) }
    ensures empty { IfNone result (members queue.new ≡ []) }
    ensures some { IfSome result (λ x. TakesFresh done.now (members queue.old) x (members queue.new)) }
    ensures room { length queue.new ≡ length queue.old }
{
    while let Some(number) = queue.pop() {
        if !done.contains(number) {
            return Some(number);
        }
    }
    None
}

/// Returns the first place from `from` on whose node isn't in `done`.
fn fresh_from(row: &[u32], from: usize, done: &IxBitSet) -> Option<usize>
    requires nodes { (j : ℕ) → j < length row.now → slice_index row.now j < length done.now }
    ensures some { IfSome result (IsFreshPlace row.now done.now from) }
    ensures none { IfNone result ((j : ℕ) → from ≤ j → j < length row.now → IsDone done.now (slice_index row.now j)) }
{
    for place in from..row.len() {
        if !done.contains(row[place] as usize) {
            return Some(place);
        }
    }
    None
}

/// Returns the first node of `row` that isn't held, or the first node if all are.
pub(crate) fn first_of(row: &[u32], held: &[u32]) -> usize
    requires some { 0 < length row.now }
    requires nodes { (j : ℕ) → j < length row.now → slice_index row.now j < length held.now }
    ensures { IsFirst row.now held.now result }
{
    for place in 0..row.len() {
        if held[row[place] as usize] == 0 {
            return row[place] as usize;
        }
    }
    row[0] as usize
}

/// Returns the first node of `node`'s component that isn't held, or its first node if all are.
fn head_of(groups: &Groups, ranks: &[u32], held: &[u32], node: usize, nodes: usize) -> usize
    requires node { node < length ranks.now }
    requires small { slice_index ranks.now node < nodes }
    requires groups { AreGroups nodes ranks.now groups.now }
    requires nodes { (j : ℕ) → j < length (places (slice_index ranks.now node) ranks.now) → slice_index (places (slice_index ranks.now node) ranks.now) j < length held.now }
    ensures { IsFirst (places (slice_index ranks.now node) ranks.now) held.now result }
{
    if groups.is_alone(ranks, node, nodes) {
        return node;
    }
    let rank = ranks[node] as usize;
    first_of(groups.row(ranks, rank, nodes), held)
}

/// Subtracts one edge that enters `node`'s component. After the last one, the component's head is added to
/// `starts`.
fn leave_outside(
    outside: &mut Vec<u32>,
    starts: &mut Queue,
    held: &[u32],
    groups: &Groups,
    ranks: &[u32],
    node: usize,
    nodes: usize,
)
    requires node { node < length ranks.now }
    requires rank { slice_index ranks.now node < length outside.old.items }
    requires small { slice_index ranks.now node < nodes }
    requires groups { AreGroups nodes ranks.now groups.now }
    requires positive { 0 < slice_index outside.old.items (slice_index ranks.now node) }
    requires nodes { (j : ℕ) → j < length (places (slice_index ranks.now node) ranks.now) → slice_index (places (slice_index ranks.now node) ranks.now) j < length held.now }
    requires room { length held.now ≤ length starts.old }
    ensures outside { outside.new.items ≡ set outside.old.items (slice_index ranks.now node) (slice_index outside.old.items (slice_index ranks.now node) - 1) }
    ensures starts { StartsGrow (places (slice_index ranks.now node) ranks.now) held.now (slice_index outside.old.items (slice_index ranks.now node) - 1) (members starts.old) (members starts.new) }
    ensures room { length starts.new ≡ length starts.old }
{
    let rank = groups.rank(ranks, node, nodes);
    let left = outside[rank] - 1;
    outside[rank] = left;
    if left == 0 {
        starts.push(head_of(groups, ranks, held, node, nodes));
    }
}

/// Subtracts one hold on `node`. After the last one, the node is added to `ready`.
fn leave_held(held: &mut Vec<u32>, ready: &mut Queue, node: usize)
    requires node { node < length held.old.items }
    requires positive { 0 < slice_index held.old.items node }
    requires room { length held.old.items ≤ length ready.old }
    ensures held { held.new.items ≡ set held.old.items node (slice_index held.old.items node - 1) }
    ensures ready { AreReady (slice_index held.old.items node - 1) node (members ready.old) (members ready.new) }
    ensures room { length ready.new ≡ length ready.old }
{
    let left = held[node] - 1;
    held[node] = left;
    if left == 0 {
        ready.push(node);
    }
}

/// Returns the edge at `place` among those that leave `node`.
fn out_edge(graph: &Digraph, node: usize, place: usize) -> Edge
    requires node { node < graph.now.nodes }
    requires place { place < length (places node (sources graph.now.edges)) }
    ensures { IsOutEdge graph.now node place result.to result.non_dev }
{
    graph.facts();
    graph.edge(graph.out_edges(node).start + place)
}

impl Plan {
    /// Returns the next node of the current component, or `None` if all are listed.
    fn next_within(
        &mut self,
        graph: &Digraph,
        ranks: &[u32],
        groups: &Groups,
        rank: usize,
    ) -> Option<usize>
        requires setup { IsSetup graph.now ranks.now }
        requires groups { AreGroups graph.now.nodes ranks.now groups.now }
        requires within { IsWithinIn graph.now ranks.now rank self.old }
        requires room { HasRoom self.old }
        ensures room { HasRoom self.new }
        ensures none { IfNone result (IsPauseIn graph.now ranks.now self.new) }
        ensures some { IfSome result (λ v. IsChosenIn graph.now ranks.now v self.new) }
        ensures done { self.new.done ≡ self.old.done }
        ensures listed { self.new.listed.items ≡ self.old.listed.items }
    {
        if let Some(node) = pop_fresh(&mut self.ready, &self.done) {
            return Some(node);
        }
        let members = groups.row(ranks, rank, graph.node_count());
        let Some(place) = fresh_from(members, self.next, &self.done) else {
            return None;
        };
        self.next = place;
        Some(members[place] as usize)
    }

    /// Passes an edge that leads to another component.
    fn pass_apart(
        &mut self,
        graph: &Digraph,
        ranks: &[u32],
        groups: &Groups,
        node: usize,
        place: usize,
        edge: Edge,
    )
        requires setup { IsSetup graph.now ranks.now }
        requires groups { AreGroups graph.now.nodes ranks.now groups.now }
        requires edge { IsOutEdge graph.now node place edge.to edge.non_dev }
        requires apart { slice_index ranks.now edge.to ≢ slice_index ranks.now node }
        requires at { IsAtIn graph.now ranks.now node place self.old }
        requires room { HasRoom self.old }
        ensures at { IsAtIn graph.now ranks.now node (place + 1) self.new }
        ensures done { self.new.done ≡ self.old.done }
        ensures listed { self.new.listed.items ≡ self.old.listed.items }
        ensures room { HasRoom self.new }
        ensures ready { self.new.ready ≡ self.old.ready }
    {
        leave_outside(
            &mut self.outside,
            &mut self.starts,
            &self.held,
            groups,
            ranks,
            edge.to,
            graph.node_count(),
        );
    }

    /// Passes an edge that isn't dev-only, to another node of the same component.
    fn pass_firm(&mut self, graph: &Digraph, ranks: &[u32], node: usize, place: usize, edge: Edge)
        requires setup { IsSetup graph.now ranks.now }
        requires edge { IsOutEdge graph.now node place edge.to edge.non_dev }
        requires same { slice_index ranks.now edge.to ≡ slice_index ranks.now node }
        requires other { edge.to ≢ node }
        requires firm { edge.non_dev ≡ true }
        requires at { IsAtIn graph.now ranks.now node place self.old }
        requires room { HasRoom self.old }
        ensures at { IsAtIn graph.now ranks.now node (place + 1) self.new }
        ensures done { self.new.done ≡ self.old.done }
        ensures listed { self.new.listed.items ≡ self.old.listed.items }
        ensures room { HasRoom self.new }
    {
        let _nodes = graph.node_count();
        let _ranks = ranks.len();
        leave_held(&mut self.held, &mut self.ready, edge.to);
    }

    /// Passes the edge at `place` of `node`, which is listed.
    fn pass(&mut self, graph: &Digraph, ranks: &[u32], groups: &Groups, node: usize, place: usize)
        requires setup { IsSetup graph.now ranks.now }
        requires groups { AreGroups graph.now.nodes ranks.now groups.now }
        requires node { node < graph.now.nodes }
        requires place { place < length (places node (sources graph.now.edges)) }
        requires at { IsAtIn graph.now ranks.now node place self.old }
        requires room { HasRoom self.old }
        ensures at { IsAtIn graph.now ranks.now node (place + 1) self.new }
        ensures done { self.new.done ≡ self.old.done }
        ensures listed { self.new.listed.items ≡ self.old.listed.items }
        ensures room { HasRoom self.new }
        ensures ready { has groups.now.several node ≡ false → self.new.ready ≡ self.old.ready }
    {
        let edge = out_edge(graph, node, place);
        let rank = groups.rank(ranks, node, graph.node_count());
        if groups.rank(ranks, edge.to, graph.node_count()) != rank {
            self.pass_apart(graph, ranks, groups, node, place, edge);
            return;
        }
        if edge.non_dev && edge.to != node {
            self.pass_firm(graph, ranks, node, place, edge);
            return;
        }
    }

    /// Appends `node` to the list and to the set of listed nodes.
    fn mark(&mut self, graph: &Digraph, ranks: &[u32], node: usize) -> Result<(), AllocError>
        requires setup { IsSetup graph.now ranks.now }
        requires chosen { IsChosenIn graph.now ranks.now node self.old }
        requires room { HasRoom self.old }
        ensures at { OnOk result (IsAtIn graph.now ranks.now node 0 self.new) }
        ensures longer { OnOk result (length self.new.listed.items ≡ length self.old.listed.items + 1) }
        ensures room { OnOk result (HasRoom self.new) }
        ensures ready { self.new.ready ≡ self.old.ready }
    {
        let _nodes = graph.node_count();
        let _ranks = ranks.len();
        self.listed.push(node)?;
        self.done.insert(node);
        Ok(())
    }

    /// Lists `node` and passes its edges.
    fn list(
        &mut self,
        graph: &Digraph,
        ranks: &[u32],
        groups: &Groups,
        node: usize,
    ) -> Result<(), AllocError>
        requires setup { IsSetup graph.now ranks.now }
        requires groups { AreGroups graph.now.nodes ranks.now groups.now }
        requires chosen { IsChosenIn graph.now ranks.now node self.old }
        requires room { HasRoom self.old }
        ensures within { OnOk result (IsWithinIn graph.now ranks.now (slice_index ranks.now node) self.new) }
        ensures longer { OnOk result (length self.new.listed.items ≡ length self.old.listed.items + 1) }
        ensures room { OnOk result (HasRoom self.new) }
        ensures ready { OnOk result (has groups.now.several node ≡ false → self.new.ready ≡ self.old.ready) }
    {
        self.mark(graph, ranks, node)?;
        let edges = graph.out_edges(node);
        for place in 0..edges.end - edges.start {
            self.pass(graph, ranks, groups, node, place);
        }
        Ok(())
    }

    /// Returns the least start, or `None` if all nodes are listed. The other nodes of its component that aren't
    /// held become ready.
    fn begin(&mut self, graph: &Digraph, ranks: &[u32], groups: &Groups) -> Option<usize>
        requires setup { IsSetup graph.now ranks.now }
        requires groups { AreGroups graph.now.nodes ranks.now groups.now }
        requires pause { IsPauseIn graph.now ranks.now self.old }
        requires room { HasRoom self.old }
        ensures none { IfNone result (IsOrder graph.now.edges graph.now.nodes self.new.listed.items) }
        ensures some { IfSome result (λ v. IsChosenIn graph.now ranks.now v self.new) }
        ensures listed { self.new.listed.items ≡ self.old.listed.items }
        ensures room { HasRoom self.new }
        ensures ready { IfSome result (λ v. has groups.now.several v ≡ false → members self.new.ready ≡ []) }
    {
        let Some(start) = pop_fresh(&mut self.starts, &self.done) else {
            return None;
        };
        make_ready(
            &mut self.ready,
            groups,
            ranks,
            &self.held,
            start,
            graph.node_count(),
        );
        self.next = 0;
        Some(start)
    }

    /// Lists the remaining nodes of the current component.
    fn finish(
        &mut self,
        graph: &Digraph,
        ranks: &[u32],
        groups: &Groups,
        start: usize,
    ) -> Result<(), AllocError>
        requires setup { IsSetup graph.now ranks.now }
        requires groups { AreGroups graph.now.nodes ranks.now groups.now }
        requires within { IsWithinIn graph.now ranks.now start self.old }
        requires room { HasRoom self.old }
        ensures room { OnOk result (HasRoom self.new) }
        ensures pause { OnOk result (IsPauseIn graph.now ranks.now self.new) }
        ensures longer { OnOk result (length self.old.listed.items ≤ length self.new.listed.items) }
    {
        let mut rank = start;
        while let Some(node) = self.next_within(graph, ranks, groups, rank) {
            self.list(graph, ranks, groups, node)?;
            rank = ranks[node] as usize;
        }
        Ok(())
    }

    /// Lists every node that isn't listed.
    fn complete(
        &mut self,
        graph: &Digraph,
        ranks: &[u32],
        groups: &Groups,
    ) -> Result<(), AllocError>
        requires setup { IsSetup graph.now ranks.now }
        requires groups { AreGroups graph.now.nodes ranks.now groups.now }
        requires pause { IsPauseIn graph.now ranks.now self.old }
        requires room { HasRoom self.old }
        ensures { OnOk result (IsOrder graph.now.edges graph.now.nodes self.new.listed.items) }
    {
        while let Some(start) = self.begin(graph, ranks, groups) {
            self.list(graph, ranks, groups, start)?;
            // Nothing of the component of a lone node is left, and nearly all nodes are alone.
            if !groups.is_alone(ranks, start, graph.node_count()) {
                let rank = ranks[start] as usize;
                self.finish(graph, ranks, groups, rank)?;
            }
        }
        Ok(())
    }
}

/// Adds `node` to `ready` if it isn't held and isn't `start`.
fn wait(ready: &mut Queue, held: &[u32], node: usize, start: usize)
    requires node { node < length held.now }
    requires room { length held.now ≤ length ready.old }
    ensures waits { Waits held.now start node (members ready.old) (members ready.new) }
    ensures room { length ready.new ≡ length ready.old }
{
    if held[node] == 0 && node != start {
        ready.push(node);
    }
}

/// Adds the nodes of `row` that aren't held to `ready`, except `start`.
fn add_ready(ready: &mut Queue, row: &[u32], held: &[u32], start: usize)
    requires nodes { (j : ℕ) → j < length row.now → slice_index row.now j < length held.now }
    requires none { members ready.old ≡ [] }
    requires room { length held.now ≤ length ready.old }
    ensures waits { RowWaits row.now held.now start (members ready.new) }
    ensures room { length ready.new ≡ length ready.old }
{
    for place in 0..row.len() {
        wait(ready, held, row[place] as usize, start);
    }
}

/// Adds the nodes of `start`'s component that aren't held to `ready`, except `start`.
fn make_ready(
    ready: &mut Queue,
    groups: &Groups,
    ranks: &[u32],
    held: &[u32],
    start: usize,
    nodes: usize,
)
    requires start { start < length ranks.now }
    requires small { slice_index ranks.now start < nodes }
    requires groups { AreGroups nodes ranks.now groups.now }
    requires nodes { (j : ℕ) → j < length (places (slice_index ranks.now start) ranks.now) → slice_index (places (slice_index ranks.now start) ranks.now) j < length held.now }
    requires none { members ready.old ≡ [] }
    requires room { length held.now ≤ length ready.old }
    ensures waits { RowWaits (places (slice_index ranks.now start) ranks.now) held.now start (members ready.new) }
    ensures room { length ready.new ≡ length ready.old }
    ensures alone { has groups.now.several start ≡ false → ready.new ≡ ready.old }
{
    if groups.is_alone(ranks, start, nodes) {
        return;
    }
    let rank = ranks[start] as usize;
    let row = groups.row(ranks, rank, nodes);
    add_ready(ready, row, held, start);
}

/// Completes the plan `first`, and returns the list of all nodes in order.
pub(crate) fn order_from(
    graph: &Digraph,
    ranks: &[u32],
    groups: &Groups,
    first: Plan,
) -> Result<Vec<usize>, AllocError>
    requires setup { IsSetup graph.now ranks.now }
    requires groups { AreGroups graph.now.nodes ranks.now groups.now }
    requires pause { IsPauseIn graph.now ranks.now first }
    requires room { HasRoom first }
    ensures { IfOk result (λ list. IsOrder graph.now.edges graph.now.nodes list.items) }
{
    let mut plan = first;
    plan.complete(graph, ranks, groups)?;
    Ok(plan.listed)
}
