//! Components that have a cycle.
ghost use Rattle.std.specs.Prelude.{◌≡◌, ◌↔◌, ◌<◌, ◌||◌, ℕ, length, nat_lt, IfOk, IsTrue};
ghost use Rattle.std.specs.List.{list_any};
ghost use Rattle.digraphs.specs.Bits.{has};
ghost use Rattle.digraphs.specs.Paths.{OnCycle};
ghost use Rattle.digraph_orders.specs.Sequences.{IsOrderOf};
ghost use Rattle.guppy_support.specs.Cycles.{has_cycle, is_loop, has_loop, nodes_of, cyclic_components};

use digraph_orders::{Order, laws};
use digraphs::{Digraph, Edge, IxBitSet};
use std::alloc::{AllocError, Global};

// Returns true if an edge leads from `node` to itself. Takes logarithmic time.
fn has_edge_to_itself(digraph: &Digraph, node: usize) -> bool
    ensures { result ≡ has_loop digraph.now.edges node }
{
    digraph.edge_between(node, node).is_some()
}

// Returns true if `component` has a cycle: it has at least two nodes, or one node with an edge to itself.
fn is_cyclic_component(order: &Order, digraph: &Digraph, component: usize) -> bool
    requires { component < order.now.count }
    ensures { result ≡ has_cycle digraph.now.edges order.now component }
{
    match order.component_nodes(component) {
        [] => false,
        [node] => has_edge_to_itself(digraph, *node),
        _ => true,
    }
}

/// Returns true if `a` and `b` are on a common cycle: paths of at least one edge lead both ways.
///
/// So a node is on a cycle with itself only if it has an edge to itself or its component has another node.
pub fn is_cyclic(order: &Order, digraph: &Digraph, a: usize, b: usize) -> bool
    requires order { IsOrderOf digraph.now order.now }
    requires a { a < digraph.now.nodes }
    requires b { b < digraph.now.nodes }
    ensures { IsTrue result ↔ OnCycle digraph.now.edges a b }
{
    order.facts();
    digraph.facts();
    laws::cycles_are_components();
    if a != b {
        order.is_same(a, b)
    } else {
        is_cyclic_component(order, digraph, order.component(a))
    }
}

// Adds the component of `edge` to `looped` if the edge leads from a node to itself.
fn note_loop(order: &Order, edge: Edge, looped: &mut IxBitSet)
    requires size { length looped.old ≡ order.now.count }
    ensures size { length looped.new ≡ order.now.count }
    ensures looped { (c : ℕ) → c < order.now.count → has looped.new c
        ≡ (has looped.old c || list_any (λ v. is_loop v edge) (nodes_of order.now c)) }
{
    order.facts();
    if edge.from == edge.to && edge.from < order.list().len() {
        looped.insert(order.component(edge.from));
    }
}

// Returns the components that have a node with an edge to itself. An allocation failure is the only error.
fn looped_components(
    alloc: Global,
    order: &Order,
    digraph: &Digraph,
) -> Result<IxBitSet, AllocError>
    ensures size { IfOk result (λ looped. length looped ≡ order.now.count) }
    ensures looped { IfOk result (λ looped. (c : ℕ) → c < order.now.count → has looped c
        ≡ list_any (has_loop digraph.now.edges) (nodes_of order.now c)) }
{
    let mut looped = IxBitSet::empty(alloc, order.component_count())?;
    for number in 0..digraph.edge_count() {
        note_loop(order, digraph.edge(number), &mut looped);
    }
    Ok(looped)
}

// Returns true if `component` has at least two nodes or is in `noted`.
fn is_large_or_noted(order: &Order, noted: &IxBitSet, component: usize) -> bool
    requires component { component < order.now.count }
    requires size { length noted.now ≡ order.now.count }
    ensures { result ≡ (nat_lt 1 (length (nodes_of order.now component)) || has noted.now component) }
{
    order.component_nodes(component).len() > 1 || noted.contains(component)
}

/// Returns the components that have a cycle, the last in the order first. They are those of at least two nodes,
/// and those of one node with an edge to itself.
///
/// Takes one pass over the edges and one over the components. `AllocError` is returned when an allocation
/// fails.
pub fn cyclic_components(
    alloc: Global,
    order: &Order,
    digraph: &Digraph,
) -> Result<Vec<usize>, AllocError>
    ensures { IfOk result (λ cyclic. cyclic.items ≡ cyclic_components digraph.now.edges order.now) }
{
    let looped = looped_components(alloc, order, digraph)?;
    let mut cyclic = Vec::new(alloc);
    let mut component = order.component_count();
    while component > 0 {
        component -= 1;
        if is_large_or_noted(order, &looped, component) {
            cyclic.push(component)?;
        }
    }
    Ok(cyclic)
}
