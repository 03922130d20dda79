//! The cycles of a feature graph.
ghost use Rattle.std.specs.Prelude.{◌≡◌, ◌<◌, IfOk, IfErr, All, length, map};
ghost use Rattle.std.specs.Iterator.{item_count};
ghost use Rattle.digraphs.specs.Paths.{OnCycle};
ghost use Rattle.feature_labels.specs.Names.{id_of};
ghost use Rattle.feature_core.specs.Errors.{refusal_of};
ghost use Rattle.feature_core.specs.Nodes.{nodes};
ghost use Rattle.feature_graph.specs.Names.{names_of_nodes};
ghost use Rattle.feature_graph.specs.Ordered.{AtOrder, edges_of};
ghost use Rattle.feature_graph.specs.Results.{GivesOrEnds};
ghost use Rattle.feature_graph.specs.Tied.{RefusesTwo, TellsTied, cycle_names, cycles_of};
ghost use Rattle.feature_graph.specs.Views.{graph_of, tables_of_graph};

use crate::graph::FeatureGraph;
use digraph_orders::Order;
use feature_core::Error;
use feature_labels::FeatureId;
use guppy_support::is_cyclic;
use guppy_support::laws::views_stay_within;
use std::alloc::{AllocError, Global};
use std::fmt;
use std::iter::FusedIterator;
use std::marker::Model;

/// A view of the cycles of a feature graph.
#[derive(Clone, Copy)]
pub struct Cycles<'g> {
    graph: FeatureGraph<'g>,
}

impl<'g> Cycles<'g> {
    /// Returns the cycles of `graph`.
    pub(crate) fn new(graph: FeatureGraph<'g>) -> Self
        ensures { cycles_of result ≡ graph_of graph.entry }
    {
        Cycles { graph }
    }

    /// Returns true if `a` and `b` lie on a common cycle: a nonempty path of edges leads from `a` to `b`, and one leads
    /// back. So a feature is cyclic with itself only if it lies on a cycle. The error is `UnknownFeatureId` with the
    /// first of `a` and `b` that the graph lacks.
    pub fn is_cyclic<'a>(&self, a: FeatureId<'a>, b: FeatureId<'a>) -> Result<bool, Error<'a>>
        ensures told { IfOk result (λ answer. TellsTied (OnCycle (edges_of (cycles_of self.now))) (cycles_of self.now).tables (id_of a.entry) (id_of b.entry) answer) }
        ensures refused { IfErr result (λ e. RefusesTwo (cycles_of self.now).tables (id_of a.entry) (id_of b.entry) (refusal_of e)) }
    {
        let (first, second) = self.graph.nodes_of_two(a, b)?;
        let built = self.graph.built;
        Ok(is_cyclic(built.order(), built.digraph(), first, second))
    }

    /// Returns an iterator over the components that have a cycle: two or more features, or one with an edge to itself.
    /// The last component in the graph's order is first, and the ids of one component are in that order. Each item
    /// allocates on its own.
    pub fn all_cycles(&self, alloc: Global) -> AllCycles<'g>
        ensures { AtOrder (cycles_of self.now) (λ o. result ≡ cycle_names (cycles_of self.now) o) }
    {
        views_stay_within();
        let (order, components) = self.graph.built.cyclic_components();
        order.facts();
        AllCycles {
            alloc,
            graph: self.graph,
            order,
            components,
            passed: 0,
        }
    }
}

impl fmt::Debug for Cycles<'_> {
    fn fmt<W: fmt::Write>(&self, f: &mut fmt::Formatter<W>) -> fmt::Result {
        f.debug_struct("Cycles")
            .field("graph", &self.graph)
            .finish()
    }
}

/// Returns the ids of the nodes in `numbers`.
fn ids_of<'g>(
    alloc: Global,
    graph: FeatureGraph<'g>,
    numbers: &[usize],
) -> Result<Vec<FeatureId<'g>>, AllocError>
    requires { All (λ n. n < length (nodes (tables_of_graph graph))) numbers.now }
    ensures { IfOk result (λ ids. map id_of ids.items ≡ names_of_nodes (tables_of_graph graph.entry) numbers.now) }
{
    let mut ids = Vec::with_capacity(alloc, numbers.len())?;
    'numbers: for number in numbers {
        ids.push(graph.id(*number))?;
    }
    Ok(ids)
}

/// An iterator over the cycles of a graph, each as the ids of its features in order. It ends after an error, which is
/// `Memory`.
#[derive(Drop)]
pub struct AllCycles<'g> {
    alloc: Global,
    graph: FeatureGraph<'g>,
    order: &'g Order,
    components: &'g [usize],
    // the number of components already passed
    passed: usize,
}

impl<'g> Model for AllCycles<'g> {
    ghost use Rattle.std.specs.Prelude.{List, drop};
    ghost use Rattle.guppy_packages.specs.Rows.{Text};
    ghost use Rattle.feature_labels.specs.Names.{LabelName};

    ghost Value = { List (List (Text × LabelName)) };

    ghost use Rattle.feature_graph.specs.inner.CycleSteps.{AreCycles, cycles_left};
    ghost use Rattle.feature_graph.specs.Views.{tables_of_graph};

    ghost view = { λ it. cycles_left (tables_of_graph it.graph) it.order.now (drop it.passed it.components.now) };

    ghost invariant = { λ it. AreCycles (tables_of_graph it.graph) it.order.now it.passed it.components.now };
}

impl<'g> Iterator for AllCycles<'g> {
    type Item = Result<Vec<FeatureId<'g>>, Error<'static>>;

    ghost next_gives = { GivesOrEnds (λ ids names. map id_of ids.items ≡ names) (λ rest. rest) };

    ghost remaining = { item_count (λ rest. rest) };

    fn next(&mut self) -> Option<Result<Vec<FeatureId<'g>>, Error<'static>>> {
        if self.passed >= self.components.len() {
            return None;
        }
        let nodes = self.order.component_nodes(self.components[self.passed]);
        match ids_of(self.alloc, self.graph, nodes) {
            Ok(ids) => {
                self.passed += 1;
                Some(Ok(ids))
            }
            Err(_) => {
                self.passed = self.components.len();
                Some(Err(Error::Memory))
            }
        }
    }
}

impl<'g> FusedIterator for AllCycles<'g> {}
