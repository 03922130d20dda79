//! The order of the nodes, and their components.
ghost use Rattle.std.specs.Prelude.{◌≡◌, ◌≢◌, ℕ, [], ◌∷◌, ◌++◌, ◌+◌, ◌-◌, ◌<◌, ◌≤◌, ◌==◌, ◌↔◌, length, slice_index, slice_get, Some, filter, IfOk, OnOk, IsTrue};
ghost use Rattle.digraphs.specs.Graph.{Graph, IsDigraph};
ghost use Rattle.digraphs.specs.Paths.{SameComponent};
ghost use Rattle.digraph_orders.specs.Orders.{IsOrder};
ghost use Rattle.digraph_orders.specs.inner.Plans.{IsSetup};
ghost use Rattle.digraph_orders.specs.inner.Apart.{AreApart};
ghost use Rattle.digraph_orders.specs.inner.Groups.{HaveOthers};
ghost use Rattle.digraphs.specs.PackedRows.{AreBegun};
ghost use Rattle.digraph_orders.specs.Sequences.{IsOrderOf, IsSequence, component_of};
ghost use Rattle.digraph_orders.specs.inner.Numbering.{AreNumbered, rank_at};

mod counts;
mod groups;
mod listing;
mod numbering;
mod queue;

use crate::components::component_ranks;
use counts::first_plan;
use digraphs::{Digraph, IxBitSet};
use groups::Groups;
use listing::order_from;
use numbering::numbered;
use std::alloc::{AllocError, Global};
use std::marker::Model;

/// All nodes of a digraph in an order, and their components. Sources are before targets as far as cycles allow.
/// Two nodes are in one component if paths lead both ways.
#[derive(Debug)]
pub struct Order {
    list: Vec<usize>,
    components: Vec<u32>,
    count: usize,
    begins: Vec<u32>,
    places: Vec<u32>,
}

impl Drop for Order {
    // Written out, so that a crate above calls it. A derived drop is proved in each crate that drops a value, with those of all fields.
    fn drop(self) {
        let Order {
            list: _list,
            components: _components,
            count: _count,
            begins: _begins,
            places: _places,
        } = self;
    }
}

impl Model for Order {
    ghost use Rattle.digraph_orders.specs.Sequences.{Sequence, IsSequence};
    ghost use Rattle.digraph_orders.specs.inner.Numbering.{AreGrouped, ArePlaces};

    ghost Value = { Sequence };

    ghost view = { λ o. record { list = o.list.items; component = o.components.items; count = o.count } };

    ghost invariant = { λ o.
        IsSequence (record { list = o.list.items; component = o.components.items; count = o.count })
        × AreGrouped o.count o.list.items o.components.items o.begins.items
        × ArePlaces o.list.items o.places.items };
}

impl Order {
    /// Computes the order and the components of `graph`. Each next node is the least-numbered one that is
    /// available. An allocation's failure is the only error.
    pub fn new(alloc: Global, graph: &Digraph) -> Result<Order, AllocError>
        ensures { IfOk result (IsOrderOf graph.now) }
    {
        graph.facts();
        graph.bounds();
        let ranked = component_ranks(alloc, graph)?;
        let ranks = ranked.ranks;
        let list = listed(alloc, graph, &ranks, ranked.several)?;
        let (components, begins, places) = numbered(alloc, &list, ranks, ranked.count)?;
        let count = begins.len() - 1;
        Ok(Order {
            list,
            components,
            count,
            begins,
            places,
        })
    }

    /// Does nothing. The contract states the invariant: each order meets `IsSequence`.
    pub fn facts(&self)
        ensures { IsSequence self.now }
    {
        let _count = self.count;
    }

    /// Returns all nodes, in order.
    pub fn list(&self) -> &[usize]
        ensures { result.now ≡ self.now.list }
    {
        &self.list
    }

    /// Returns the place of `node` in the list.
    pub fn place(&self, node: usize) -> usize
        requires { node < length self.now.list }
        ensures { slice_get self.now.list result ≡ Some node }
    {
        self.places[node] as usize
    }

    /// Returns the number of components.
    pub fn component_count(&self) -> usize
        ensures { result ≡ self.now.count }
    {
        self.count
    }

    /// Returns the number of `node`'s component. Components are numbered by their first place in the order.
    pub fn component(&self, node: usize) -> usize
        requires { node < length self.now.component }
        ensures { result ≡ component_of self.now node }
    {
        self.components[node] as usize
    }

    /// Returns true if `a` and `b` are in one component: paths lead both ways.
    pub fn is_same(&self, a: usize, b: usize) -> bool
        requires a { a < length self.now.component }
        requires b { b < length self.now.component }
        ensures component { result ≡ (component_of self.now a == component_of self.now b) }
        ensures reach { (g : Graph) → IsOrderOf g self.now → IsTrue result ↔ SameComponent g.edges a b }
    {
        self.components[a] == self.components[b]
    }

    /// Returns the nodes of the component with this number, in order.
    pub fn component_nodes(&self, component: usize) -> &[usize]
        requires { component < self.now.count }
        ensures { result.now ≡ filter (λ v. component_of self.now v == component) self.now.list }
    {
        &self.list[self.begins[component] as usize..self.begins[component + 1] as usize]
    }
}

// Returns the list of the order, from the ranks of the nodes' components and the nodes of those of several nodes.
fn listed(
    alloc: Global,
    graph: &Digraph,
    ranks: &[u32],
    several: IxBitSet,
) -> Result<Vec<usize>, AllocError>
    requires setup { IsSetup graph.now ranks.now }
    requires several { length several ≡ graph.now.nodes }
    requires others { HaveOthers ranks.now graph.now.nodes several }
    ensures { IfOk result (λ list. IsOrder graph.now.edges graph.now.nodes list.items) }
{
    let groups = Groups::new(alloc, ranks, several, graph.node_count())?;
    let plan = first_plan(alloc, graph, ranks, &groups)?;
    order_from(graph, ranks, &groups, plan)
}
