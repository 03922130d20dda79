//! Views of some nodes in the order of a feature graph.
ghost use Rattle.std.specs.Prelude.{◌≡◌, IfOk, IsTrue, length};
ghost use Rattle.guppy_support.specs.Views.{in_order, links_in_order};
ghost use Rattle.feature_graph_c.specs.requests.Answers.{Answers, Has};
ghost use Rattle.feature_graph_c.specs.requests.Contents.{Linked, Ordered, Roots};
ghost use Rattle.feature_graph_c.specs.requests.Requests as spec;

use crate::requests::answers::{broken, with_numbers};
use crate::requests::requests::view_in;
use crate::requests::sets::set_of;
use digraph_orders::Order;
use digraphs::{Digraph, IxBitSet};
use feature_core::FeatureGraphData;
use guppy_packages::DependencyDirection;
use guppy_support::{InOrder, LinksInOrder, Reading};
use std::alloc::{AllocError, Global};

/// Returns the members of `set` in `order`.
fn nodes_in_order(
    alloc: Global,
    order: &Order,
    set: &IxBitSet,
    reading: Reading,
) -> Result<Vec<usize>, AllocError>
    requires { length set.now ≡ length order.now.list }
    ensures { IfOk result (λ numbers. numbers.items ≡ in_order reading order.now.list set.now) }
{
    let mut numbers = Vec::new(alloc);
    for node in InOrder::new(order, set, reading) {
        numbers.push(node)?;
    }
    Ok(numbers)
}

/// Returns the edges between members of `set`, in `order`.
fn links_between(
    alloc: Global,
    order: &Order,
    digraph: &Digraph,
    set: &IxBitSet,
    reading: Reading,
) -> Result<Vec<usize>, AllocError>
    requires order { length order.now.list ≡ digraph.now.nodes }
    requires size { length set.now ≡ digraph.now.nodes }
    ensures { IfOk result (λ numbers. numbers.items ≡ links_in_order reading digraph.now.edges order.now.list set.now) }
{
    let mut numbers = Vec::new(alloc);
    for edge in LinksInOrder::new(order, digraph, set, reading) {
        numbers.push(edge)?;
    }
    Ok(numbers)
}

/// Returns the answer with `nodes` in order.
fn ordered(
    alloc: Global,
    built: &FeatureGraphData,
    direction: DependencyDirection,
    nodes: &[usize],
) -> Result<Vec<u8>, AllocError>
    requires { IsTrue (spec.are_below (length built.now.packages) nodes.now) }
    ensures { IfOk result (λ answer. Has (Ordered built.now (direction, nodes.now)) answer.items) }
{
    let set = set_of(alloc, built.node_count(), nodes)?;
    let numbers = nodes_in_order(alloc, built.order(), &set, direction.reading())?;
    with_numbers(alloc, &numbers)
}

/// Returns the answer to a request for some nodes in order. `AllocError` is the only error.
pub fn order(
    alloc: Global,
    built: &FeatureGraphData,
    words: &[usize],
) -> Result<Vec<u8>, AllocError>
    ensures { IfOk result (λ answer. Answers (Ordered built.now) (spec.view_in (length built.now.packages) words.now) answer.items) }
{
    match view_in(words, built.node_count()) {
        Some((direction, nodes)) => ordered(alloc, built, direction, nodes),
        None => broken(alloc),
    }
}

/// Returns the answer with the roots among `nodes`.
fn with_roots(
    alloc: Global,
    built: &FeatureGraphData,
    direction: DependencyDirection,
    nodes: &[usize],
) -> Result<Vec<u8>, AllocError>
    requires { IsTrue (spec.are_below (length built.now.packages) nodes.now) }
    ensures { IfOk result (λ answer. Has (Roots built.now (direction, nodes.now)) answer.items) }
{
    let set = set_of(alloc, built.node_count(), nodes)?;
    let numbers = guppy_support::roots(
        alloc,
        built.order(),
        built.digraph(),
        &set,
        direction.reading(),
    )?;
    with_numbers(alloc, &numbers)
}

/// Returns the answer to a request for the roots among some nodes. `AllocError` is the only error.
pub fn roots(
    alloc: Global,
    built: &FeatureGraphData,
    words: &[usize],
) -> Result<Vec<u8>, AllocError>
    ensures { IfOk result (λ answer. Answers (Roots built.now) (spec.view_in (length built.now.packages) words.now) answer.items) }
{
    match view_in(words, built.node_count()) {
        Some((direction, nodes)) => with_roots(alloc, built, direction, nodes),
        None => broken(alloc),
    }
}

/// Returns the answer with the edges between `nodes`.
fn linked(
    alloc: Global,
    built: &FeatureGraphData,
    direction: DependencyDirection,
    nodes: &[usize],
) -> Result<Vec<u8>, AllocError>
    requires { IsTrue (spec.are_below (length built.now.packages) nodes.now) }
    ensures { IfOk result (λ answer. Has (Linked built.now (direction, nodes.now)) answer.items) }
{
    let set = set_of(alloc, built.node_count(), nodes)?;
    let numbers = links_between(
        alloc,
        built.order(),
        built.digraph(),
        &set,
        direction.reading(),
    )?;
    with_numbers(alloc, &numbers)
}

/// Returns the answer to a request for the edges between some nodes. `AllocError` is the only error.
pub fn links(
    alloc: Global,
    built: &FeatureGraphData,
    words: &[usize],
) -> Result<Vec<u8>, AllocError>
    ensures { IfOk result (λ answer. Answers (Linked built.now) (spec.view_in (length built.now.packages) words.now) answer.items) }
{
    match view_in(words, built.node_count()) {
        Some((direction, nodes)) => linked(alloc, built, direction, nodes),
        None => broken(alloc),
    }
}
