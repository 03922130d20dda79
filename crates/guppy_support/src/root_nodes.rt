//! The roots of a set of nodes.
ghost use Rattle.std.specs.Prelude.{◌≡◌, ◌<◌, ◌||◌, ℕ, length, IfOk};
ghost use Rattle.std.specs.List.{list_any};
ghost use Rattle.digraphs.specs.Bits.{has};
ghost use Rattle.guppy_support.specs.Views.{links_in_order, leaves, roots_in_order};

use crate::in_order::InOrder;
use crate::links_in_order::{LinksInOrder, ends_of};
use crate::reading::Reading;
use digraph_orders::Order;
use digraphs::{Digraph, IxBitSet};
use std::alloc::{AllocError, Global};

// Adds the component of `edge`'s start to `left` if the edge ends in another component.
fn note(order: &Order, digraph: &Digraph, reading: Reading, edge: usize, left: &mut IxBitSet)
    requires edge { edge < length digraph.now.edges }
    requires order { length order.now.list ≡ digraph.now.nodes }
    requires size { length left.old ≡ order.now.count }
    ensures size { length left.new ≡ order.now.count }
    ensures left { (c : ℕ) → c < order.now.count → has left.new c
        ≡ (has left.old c || leaves reading digraph.now.edges order.now c edge) }
{
    order.facts();
    digraph.facts();
    let (start, end) = ends_of(digraph, reading, edge);
    let component = order.component(start);
    if order.component(end) != component {
        left.insert(component);
    }
}

// Returns the components from which an edge between members leads into another component.
fn left_components(
    alloc: Global,
    order: &Order,
    digraph: &Digraph,
    members: &IxBitSet,
    reading: Reading,
) -> Result<IxBitSet, AllocError>
    requires order { length order.now.list ≡ digraph.now.nodes }
    requires size { length members.now ≡ digraph.now.nodes }
    ensures size { IfOk result (λ left. length left ≡ order.now.count) }
    ensures left { IfOk result (λ left. (c : ℕ) → c < order.now.count → has left c
        ≡ list_any (leaves reading digraph.now.edges order.now c) (links_in_order reading digraph.now.edges order.now.list members.now)) }
{
    let mut left = IxBitSet::empty(alloc, order.component_count())?;
    for edge in LinksInOrder::new(order, digraph, members, reading) {
        note(order, digraph, reading, edge, &mut left);
    }
    Ok(left)
}

/// Returns the roots among `members`, in the order that `reading` decides. A member is a root if no edge
/// between members starts in its component and ends outside it.
///
/// Read forward, a root's component depends on no other member; read backward, no other member depends on it.
/// Components are those of `order`. Allocates one bit per component, and the list. `AllocError` is returned
/// when an allocation fails.
pub fn roots(
    alloc: Global,
    order: &Order,
    digraph: &Digraph,
    members: &IxBitSet,
    reading: Reading,
) -> Result<Vec<usize>, AllocError>
    requires order { length order.now.list ≡ digraph.now.nodes }
    requires size { length members.now ≡ digraph.now.nodes }
    ensures { IfOk result (λ roots. roots.items ≡ roots_in_order reading digraph.now.edges order.now members.now) }
{
    order.facts();
    let left = left_components(alloc, order, digraph, members, reading)?;
    let mut roots = Vec::new(alloc);
    for node in InOrder::new(order, members, reading) {
        if !left.contains(order.component(node)) {
            roots.push(node)?;
        }
    }
    Ok(roots)
}
