//! Calls on digraphs and their orders.
use crate::shared::{Failure, Out, all_of, cut, number};
use guppy_support::{Digraph, DigraphError, Edge, Order};
use std::alloc::Global;

/// Writes `edge` as a word: `>` marks an ordinary edge, and `~` a dev-only one.
fn tell_edge(out: &Out, edge: Edge) {
    out.number(" ", edge.from);
    out.number(if edge.non_dev { ">" } else { "~" }, edge.to);
}

/// Writes the counts of nodes and edges, and the edges.
fn tell_digraph(out: &Out, graph: &Digraph) {
    out.number("", graph.node_count());
    out.number(" nodes, ", graph.edge_count());
    out.part(" edges:");
    for number in 0..graph.edge_count() {
        tell_edge(out, graph.edge(number));
    }
    out.line("");
}

/// Writes the counts of nodes and components of `order`.
fn tell_counts(out: &Out, order: &Order) {
    out.number("", order.list().len());
    out.number(" in ", order.component_count());
    out.part(" components");
}

/// Writes the nodes in order, each with its component.
fn tell_order(out: &Out, order: &Order) {
    order.facts();
    tell_counts(out, order);
    out.part(":");
    for node in order.list() {
        if *node < order.list().len() {
            out.number(" ", *node);
            out.number(":", order.component(*node));
        }
    }
    out.line("");
}

/// Writes the numbers of the edges out of `node` and into it.
fn tell_edges_at(out: &Out, graph: &Digraph, node: usize) {
    if node < graph.node_count() {
        out.number("", node);
        out.part(": out");
        for number in graph.out_edges(node) {
            out.number(" ", number);
        }
        out.part(", in");
        for place in 0..graph.edge_count() {
            let Some(number) = graph.in_edge(node, place) else {
                break;
            };
            out.number(" ", number);
        }
    }
}

/// Writes the place of `node` in `order`, and the nodes of its component.
fn tell_place(out: &Out, order: &Order, node: usize) {
    order.facts();
    if node < order.list().len() {
        out.number(", at ", order.place(node));
        out.part(", with");
        for other in order.component_nodes(order.component(node)) {
            out.number(" ", *other);
        }
    }
    out.line("");
}

/// Writes the edge from `from` to `to` with its number, if there is one.
fn tell_between(out: &Out, graph: &Digraph, from: usize, to: usize) {
    if let Some(number) = graph.edge_between(from, to) {
        tell_edge(out, graph.edge(number));
        out.number("=", number);
    }
}

/// Writes `one` and `other` if they are in the same component.
fn tell_same(out: &Out, order: &Order, one: usize, other: usize) {
    order.facts();
    if one < order.list().len() && other < order.list().len() && order.is_same(one, other) {
        out.number(" ", one);
        out.number("=", other);
    }
}

/// Writes the edge between each pair of nodes, and then the pairs in the same component.
fn tell_pairs(out: &Out, graph: &Digraph, order: &Order) {
    let nodes = graph.node_count();
    out.part("edges:");
    for from in 0..nodes {
        for to in 0..nodes {
            tell_between(out, graph, from, to);
        }
    }
    out.part("\nsame:");
    for one in 0..nodes {
        for other in 0..nodes {
            tell_same(out, order, one, other);
        }
    }
    out.line("");
}

/// Writes the facts about `graph` and `order` that the call `name` asks for.
fn tell(out: &Out, name: &str, graph: &Digraph, order: &Order) {
    match name {
        "nodes" => {
            for node in 0..graph.node_count() {
                tell_edges_at(out, graph, node);
                tell_place(out, order, node);
            }
        }
        "pairs" => tell_pairs(out, graph, order),
        "large" => {
            out.number("nodes ", graph.node_count());
            out.part(", ");
            tell_last(out, order);
        }
        _ => tell_order(out, order),
    }
}

/// Builds the digraph of `nodes` nodes and `edges`, and its order, and writes the facts of the call `name`. Writes the error
/// if there is no digraph or no order.
fn tell_given(out: &Out, alloc: Global, name: &str, nodes: usize, edges: &[Edge]) {
    match Digraph::new(alloc, nodes, edges) {
        Ok(graph) => {
            match Order::new(alloc, &graph) {
                Ok(order) => tell(out, name, &graph, &order),
                Err(_) => out.failure(Failure::Memory),
            }
            if name != "large" {
                tell_digraph(out, &graph);
            }
        }
        Err(DigraphError::Memory) => out.failure(Failure::Memory),
        Err(error) => out.debug_line(error),
    }
}

/// Makes the call `name` on the digraph of `words`: the count of nodes, and the edges. `Words` if these can't be read, or
/// `Memory`.
pub fn given(out: &Out, alloc: Global, name: &str, words: &str) -> Result<(), Failure> {
    let (nodes, listed) = cut(words);
    let nodes = number(nodes)?;
    let edges = all_of(alloc, listed)?;
    tell_given(out, alloc, name, nodes, &edges);
    Ok(())
}

/// Appends the edges of `shape` with `nodes` nodes: `cycle` for one cycle, `cycles` for cycles of two nodes, or else a path.
/// In `cycles`, each cycle has an edge to the one before it, and its own edge back is dev-only. `Memory` is the only error.
fn push_shape(edges: &mut Vec<Edge>, shape: &str, nodes: usize) -> Result<(), Failure> {
    let cycles = shape == "cycles";
    for to in 1..nodes {
        if !cycles || to % 2 == 1 {
            edges.push(Edge {
                from: to - 1,
                to,
                non_dev: true,
            })?;
        }
        if cycles {
            edges.push(Edge {
                from: to,
                to: to - 1,
                non_dev: to % 2 == 0,
            })?;
        }
    }
    if shape == "cycle" {
        edges.push(Edge {
            from: nodes.saturating_sub(1),
            to: 0,
            non_dev: true,
        })?;
    }
    Ok(())
}

/// Writes the counts of `order`, and the component of the last node.
fn tell_last(out: &Out, order: &Order) {
    order.facts();
    tell_counts(out, order);
    let nodes = order.list().len();
    if nodes > 0 {
        out.number(", the last in ", order.component(nodes - 1));
    }
    out.line("");
}

/// Makes a call on a digraph that is too large to list in a script. `words` are its shape and its count of nodes. `Words` if
/// the count is no number, or `Memory`.
pub fn large(out: &Out, alloc: Global, words: &str) -> Result<(), Failure> {
    let (shape, nodes) = cut(words);
    let nodes = number(nodes)?;
    let mut edges = Vec::new(alloc);
    push_shape(&mut edges, shape, nodes)?;
    tell_given(out, alloc, "large", nodes, &edges);
    Ok(())
}
