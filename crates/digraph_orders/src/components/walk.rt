//! The depth-first walk that finds components.
ghost use Rattle.std.specs.Prelude.{◌≡◌, ◌≢◌, ℕ, ◌+◌, ◌-◌, ◌*◌, ◌^◌, ◌<◌, ◌≤◌, length, IfOk, OnOk, slice_index, true};
ghost use Rattle.digraphs.specs.Bits.{has};
ghost use Rattle.digraphs.specs.Graph.{sources};
ghost use Rattle.digraphs.specs.Paths.{HasEdge, Path};
ghost use Rattle.digraphs.specs.Rows.{places};
ghost use Rattle.digraph_orders.specs.inner.NodeEdges.{target_at};
ghost use Rattle.digraph_orders.specs.inner.ComponentWalk.{IsWalk, IsInOrFrom, IsFrontOf, AreGiven, steps_left};

use digraphs::{Digraph, IxBitSet, zeroes};
use std::alloc::{AllocError, Global};

/// The state of the walk. It keeps its own stack, so deep graphs don't overflow the call stack.
#[derive(Drop)]
pub(crate) struct Walk {
    /// Per node: 0 before it is entered, then one plus its place in `pending`, then its component's level.
    pub(crate) marks: Vec<u32>,
    /// The entered nodes whose component isn't known yet, in the order of entry.
    pub(crate) pending: Vec<u32>,
    /// The places in `pending` at which components begin, as far as is known.
    pub(crate) bounds: Vec<u32>,
    /// The open nodes. Each leads to the next.
    pub(crate) opened: Vec<u32>,
    /// The number of edges left to look at, for each open node.
    pub(crate) left: Vec<u32>,
    /// The level of the next component. Levels are assigned downwards.
    pub(crate) level: u32,
    /// The nodes whose component is known. The set is read in place of the marks, because it is small enough for a
    /// processor's cache.
    pub(crate) finished: IxBitSet,
    /// The nodes of the finished components that have several nodes.
    pub(crate) several: IxBitSet,
}

/// Sets the mark of each pending node from place `from` on to `level`, and inserts the node into `finished`.
fn give(marks: &mut Vec<u32>, finished: &mut IxBitSet, pending: &[u32], from: usize, level: u32)
    requires from { from ≤ length pending.now }
    requires placed { (i : ℕ) → i < length pending.now → (slice_index pending.now i < length marks.old.items) × (slice_index marks.old.items (slice_index pending.now i) ≡ i + 1) }
    requires known { (v : ℕ) → 0 < slice_index marks.old.items v → slice_index marks.old.items v ≤ length pending.now → slice_index pending.now (slice_index marks.old.items v - 1) ≡ v }
    requires nodes { (i : ℕ) → i < length pending.now → slice_index pending.now i < length finished.old }
    ensures long { length marks.new.items ≡ length marks.old.items }
    ensures given { AreGiven marks.old.items marks.new.items from (length pending.now) level }
    ensures finished_long { length finished.new ≡ length finished.old }
    ensures only { (v : ℕ) → has finished.new v ≡ true → IsInOrFrom finished.old pending.now from v }
    ensures all { (v : ℕ) → IsInOrFrom finished.old pending.now from v → has finished.new v ≡ true }
{
    for place in from..pending.len() {
        let node = pending[place] as usize;
        marks[node] = level;
        finished.insert(node);
    }
}

/// Inserts each pending node from place `from` on into `set`.
fn insert_from(set: &mut IxBitSet, pending: &[u32], from: usize)
    requires { (i : ℕ) → i < length pending.now → slice_index pending.now i < length set.old }
    ensures long { length set.new ≡ length set.old }
    ensures only { (v : ℕ) → has set.new v ≡ true → IsInOrFrom set.old pending.now from v }
    ensures all { (v : ℕ) → IsInOrFrom set.old pending.now from v → has set.new v ≡ true }
{
    for place in from..pending.len() {
        set.insert(pending[place] as usize);
    }
}

/// Inserts each pending node from place `from` on into `several`, if there are two or more.
fn note_several(several: &mut IxBitSet, pending: &[u32], from: usize)
    requires from { from ≤ length pending.now }
    requires nodes { (i : ℕ) → i < length pending.now → slice_index pending.now i < length several.old }
    ensures long { length several.new ≡ length several.old }
    ensures kept { (v : ℕ) → has several.old v ≡ true → has several.new v ≡ true }
    ensures all { from + 1 < length pending.now → (i : ℕ) → from ≤ i → i < length pending.now → has several.new (slice_index pending.now i) ≡ true }
{
    if pending.len() - from < 2 {
        return;
    }
    insert_from(several, pending, from);
}

/// Removes the last bounds while they are at least `mark`.
fn fold(bounds: &mut Vec<u32>, mark: u32)
    requires mark { 0 < mark }
    requires first { (0 < length bounds.old.items) × (slice_index bounds.old.items 0 ≡ 0) }
    ensures some { 0 < length bounds.new.items }
    ensures front { IsFrontOf bounds.old.items bounds.new.items }
    ensures low { slice_index bounds.new.items (length bounds.new.items - 1) < mark }
    ensures dropped { (i : ℕ) → length bounds.new.items ≤ i → i < length bounds.old.items → mark ≤ slice_index bounds.old.items i }
{
    while bounds[bounds.len() - 1] >= mark {
        let _ = bounds.pop();
    }
}

impl Walk {
    /// Enters `node`, which isn't entered and is reachable from each pending node. An allocation failure is the
    /// only error.
    fn enter(&mut self, graph: &Digraph, node: usize) -> Result<(), AllocError>
        requires walk { IsWalk graph.now self.old }
        requires node { node < graph.now.nodes }
        requires new { slice_index self.old.marks.items node ≡ 0 }
        requires led { (j : ℕ) → j < length self.old.pending.items → Path graph.now.edges (slice_index self.old.pending.items j) node }
        ensures walk { OnOk result (IsWalk graph.now self.new) }
        ensures steps { OnOk result (steps_left graph.now self.new < steps_left graph.now self.old) }
        ensures kept { OnOk result ((v : ℕ) → slice_index self.old.marks.items v ≢ 0 → slice_index self.new.marks.items v ≢ 0) }
        ensures entered { OnOk result (slice_index self.new.marks.items node ≢ 0) }
    {
        graph.facts();
        graph.bounds();
        let edges = graph.out_edges(node);
        let place = self.pending.len() as u32;
        self.pending.push(node as u32)?;
        self.bounds.push(place)?;
        self.opened.push(node as u32)?;
        self.left.push((edges.end - edges.start) as u32)?;
        self.marks[node] = place + 1;
        Ok(())
    }

    /// Closes the last open node `top`, which has no edges left. If a component begins with it, the component
    /// gets its level.
    fn close(&mut self, graph: &Digraph, top: usize)
        requires walk { IsWalk graph.now self.old }
        requires opened { 0 < length self.old.opened.items }
        requires top { slice_index self.old.opened.items (length self.old.opened.items - 1) ≡ top }
        requires none { slice_index self.old.left.items (length self.old.left.items - 1) ≡ 0 }
        ensures walk { IsWalk graph.now self.new }
        ensures steps { steps_left graph.now self.new < steps_left graph.now self.old }
        ensures kept { (v : ℕ) → slice_index self.old.marks.items v ≢ 0 → slice_index self.new.marks.items v ≢ 0 }
    {
        graph.facts();
        graph.bounds();
        let place = self.marks[top] - 1;
        let _ = self.opened.pop();
        let _ = self.left.pop();
        if self.bounds[self.bounds.len() - 1] < place {
            return;
        }
        let _ = self.bounds.pop();
        give(
            &mut self.marks,
            &mut self.finished,
            &self.pending,
            place as usize,
            self.level,
        );
        note_several(&mut self.several, &self.pending, place as usize);
        self.pending.truncate(place as usize);
        self.level -= 1;
    }

    /// Passes an edge of `top` that leads to `node`, which was entered earlier.
    fn pass(&mut self, graph: &Digraph, top: usize, node: usize)
        requires walk { IsWalk graph.now self.old }
        requires opened { 0 < length self.old.opened.items }
        requires top { slice_index self.old.opened.items (length self.old.opened.items - 1) ≡ top }
        requires some { 0 < slice_index self.old.left.items (length self.old.left.items - 1) }
        requires next { node ≡ target_at graph.now.edges top (length (places top (sources graph.now.edges)) - slice_index self.old.left.items (length self.old.left.items - 1)) }
        requires node { node < graph.now.nodes }
        requires edge { HasEdge graph.now.edges top node }
        requires entered { 0 < slice_index self.old.marks.items node }
        ensures walk { IsWalk graph.now self.new }
        ensures steps { steps_left graph.now self.new < steps_left graph.now self.old }
        ensures kept { self.new.marks ≡ self.old.marks }
    {
        graph.facts();
        fold(&mut self.bounds, self.marks[node]);
        let last = self.left.len() - 1;
        self.left[last] -= 1;
    }

    /// Returns the target of the next edge of the last open node `top`.
    fn next(&self, graph: &Digraph, top: usize) -> usize
        requires walk { IsWalk graph.now self.now }
        requires opened { 0 < length self.now.opened.items }
        requires top { slice_index self.now.opened.items (length self.now.opened.items - 1) ≡ top }
        requires node { top < graph.now.nodes }
        requires some { 0 < slice_index self.now.left.items (length self.now.left.items - 1) }
        ensures value { result ≡ target_at graph.now.edges top (length (places top (sources graph.now.edges)) - slice_index self.now.left.items (length self.now.left.items - 1)) }
        ensures node { result < graph.now.nodes }
        ensures edge { HasEdge graph.now.edges top result }
    {
        graph.facts();
        let edges = graph.out_edges(top);
        graph
            .edge(edges.end - self.left[self.left.len() - 1] as usize)
            .to
    }

    /// Returns true if the last open node `top` has an edge left, and the next one leads to a finished node.
    fn is_next_finished(&self, graph: &Digraph, top: usize) -> bool
        requires walk { IsWalk graph.now self.now }
        requires opened { 0 < length self.now.opened.items }
        requires top { slice_index self.now.opened.items (length self.now.opened.items - 1) ≡ top }
        requires node { top < graph.now.nodes }
        ensures some { result ≡ true → 0 < slice_index self.now.left.items (length self.now.left.items - 1) }
        ensures finished { result ≡ true → has self.now.finished (target_at graph.now.edges top (length (places top (sources graph.now.edges)) - slice_index self.now.left.items (length self.now.left.items - 1))) ≡ true }
    {
        if self.left[self.left.len() - 1] == 0 {
            return false;
        }
        self.finished.contains(self.next(graph, top))
    }

    /// Passes the next edges of the last open node `top` that lead to finished nodes.
    fn skip(&mut self, graph: &Digraph, top: usize)
        requires walk { IsWalk graph.now self.old }
        requires opened { 0 < length self.old.opened.items }
        requires top { slice_index self.old.opened.items (length self.old.opened.items - 1) ≡ top }
        requires node { top < graph.now.nodes }
        ensures walk { IsWalk graph.now self.new }
        ensures opened { self.new.opened.items ≡ self.old.opened.items }
        ensures steps { steps_left graph.now self.new ≤ steps_left graph.now self.old }
        ensures kept { self.new.marks.items ≡ self.old.marks.items }
    {
        while self.is_next_finished(graph, top) {
            let last = self.left.len() - 1;
            self.left[last] -= 1;
        }
    }

    /// Returns the node that was opened last.
    fn last(&self, graph: &Digraph) -> usize
        requires walk { IsWalk graph.now self.now }
        requires opened { 0 < length self.now.opened.items }
        ensures value { slice_index self.now.opened.items (length self.now.opened.items - 1) ≡ result }
        ensures node { result < graph.now.nodes }
    {
        graph.facts();
        self.opened[self.opened.len() - 1] as usize
    }

    /// Looks at the next edge of the last open node that leads to no finished node: enters its target, or passes the
    /// edge if the target was entered. If no edge is left, closes the node. An allocation failure is the only error.
    fn step(&mut self, graph: &Digraph) -> Result<(), AllocError>
        requires walk { IsWalk graph.now self.old }
        requires opened { 0 < length self.old.opened.items }
        ensures walk { OnOk result (IsWalk graph.now self.new) }
        ensures steps { OnOk result (steps_left graph.now self.new < steps_left graph.now self.old) }
        ensures kept { OnOk result ((v : ℕ) → slice_index self.old.marks.items v ≢ 0 → slice_index self.new.marks.items v ≢ 0) }
    {
        let top = self.last(graph);
        self.skip(graph, top);
        if self.left[self.left.len() - 1] == 0 {
            self.close(graph, top);
            return Ok(());
        }
        let node = self.next(graph, top);
        if self.marks[node] == 0 {
            return self.enter(graph, node);
        }
        self.pass(graph, top, node);
        Ok(())
    }

    /// Enters `root` if it wasn't entered, and walks until no node is open. An allocation failure is the only
    /// error.
    fn visit(&mut self, graph: &Digraph, root: usize) -> Result<(), AllocError>
        requires walk { IsWalk graph.now self.old }
        requires none { length self.old.opened.items ≡ 0 }
        requires root { root < graph.now.nodes }
        ensures walk { OnOk result (IsWalk graph.now self.new) }
        ensures none { OnOk result (length self.new.opened.items ≡ 0) }
        ensures kept { OnOk result ((v : ℕ) → slice_index self.old.marks.items v ≢ 0 → slice_index self.new.marks.items v ≢ 0) }
        ensures entered { OnOk result (slice_index self.new.marks.items root ≢ 0) }
    {
        if self.marks[root] != 0 {
            return Ok(());
        }
        self.enter(graph, root)?;
        while self.opened.len() > 0 {
            self.step(graph)?;
        }
        Ok(())
    }
}

/// Returns a walk that has entered no node.
fn fresh(alloc: Global, graph: &Digraph) -> Result<Walk, AllocError>
    ensures walk { IfOk result (λ w. IsWalk graph.now w) }
    ensures none { IfOk result (λ w. length w.opened.items ≡ 0) }
{
    graph.bounds();
    let nodes = graph.node_count();
    let marks = zeroes(alloc, nodes)?;
    let pending = Vec::with_capacity(alloc, nodes)?;
    let bounds = Vec::with_capacity(alloc, nodes)?;
    let opened = Vec::with_capacity(alloc, nodes)?;
    let left = Vec::with_capacity(alloc, nodes)?;
    let finished = IxBitSet::empty(alloc, nodes)?;
    let several = IxBitSet::empty(alloc, nodes)?;
    Ok(Walk {
        marks,
        pending,
        bounds,
        opened,
        left,
        level: (2 * nodes) as u32,
        finished,
        several,
    })
}

/// Returns the finished walk from every node: each mark is a level. An allocation failure is the only error.
///
/// The last node is visited first. Where most edges lead to higher numbers, their targets then have a level already,
/// and neighbours in the list of nodes get neighbouring levels.
pub(crate) fn walked(alloc: Global, graph: &Digraph) -> Result<Walk, AllocError>
    ensures walk { IfOk result (λ w. IsWalk graph.now w) }
    ensures whole { IfOk result (λ w. (v : ℕ) → v < graph.now.nodes → graph.now.nodes < slice_index w.marks.items v) }
{
    let mut walk = fresh(alloc, graph)?;
    let mut root = graph.node_count();
    while root > 0 {
        root -= 1;
        walk.visit(graph, root)?;
    }
    Ok(walk)
}
