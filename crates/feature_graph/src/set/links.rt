//! The edges and links between the features of a set.
ghost use Rattle.std.specs.Prelude.{◌≡◌, ◌<◌, Some, All, MatchOption, IsTrue, IsFalse, length};
ghost use Rattle.walk_engine.specs.declared.walks.Half.TheVariants.{Full};
ghost use Rattle.std.specs.Iterator.{YieldsFirstBy, item_count};
ghost use Rattle.feature_graph.specs.LinkViews.{link_of};
ghost use Rattle.feature_graph.specs.LinkValues.{has_facts};
ghost use Rattle.feature_graph.specs.Ordered.{AtOrder, edge_said, edges_said, full_links, ordered_edges, said_by};
ghost use Rattle.feature_graph.specs.Views.{built_of, graph_of};
ghost use Rattle.feature_graph.specs.Visits.{offered};

use crate::graph::FeatureGraph;
use crate::link::ConditionalLink;
use crate::set::FeatureSet;
use crate::set::ordered::reading;
use feature_core::FeatureEdge;
use feature_core::graph_laws::content_of_graph;
use feature_labels::FeatureId;
use guppy_packages::DependencyDirection;
use guppy_support::LinksInOrder;
use guppy_support::laws::views_stay_within;
use std::iter::FusedIterator;
use std::marker::Model;
use walk_engine::Half;

impl<'g> FeatureSet<'g> {
    /// Returns the numbers of the edges between the set's features, in order.
    fn edges_in_order(&self, direction: DependencyDirection) -> LinksInOrder<'_>
        ensures order { AtOrder self.now.graph (λ o. result ≡ ordered_edges direction self.now o) }
        ensures within { All (λ k. k < length self.now.graph.built.edges) result }
    {
        views_stay_within();
        let built = self.graph.built;
        LinksInOrder::new(
            built.order(),
            built.digraph(),
            &self.members,
            reading(direction),
        )
    }

    /// Returns an iterator over the edges with both features in the set, each as the ids of its source and target, with
    /// the edge.
    ///
    /// The edges are in the order of the features that they start at, which is that of `feature_ids(direction)`. In
    /// reverse, an edge starts at its target. Edges with the same start are by the node number of the other feature.
    pub fn links(&self, direction: DependencyDirection) -> Links<'g, '_>
        ensures { AtOrder self.now.graph (λ o. result ≡ edges_said self.now.graph (ordered_edges direction self.now o)) }
    {
        Links {
            graph: self.graph,
            numbers: self.edges_in_order(direction),
        }
    }

    /// Returns an iterator over the full links of the conditional edges among `links(direction)`, in the same order.
    /// Each edge is returned once; a weak edge isn't split into its halves.
    pub fn conditional_links(&self, direction: DependencyDirection) -> ConditionalLinks<'g, '_>
        ensures { AtOrder self.now.graph (λ o. result ≡ full_links self.now.graph (ordered_edges direction self.now o)) }
    {
        ConditionalLinks {
            graph: self.graph,
            numbers: self.edges_in_order(direction),
        }
    }
}

/// Returns the features of edge `number`, and the edge.
fn edge_at<'g>(
    graph: FeatureGraph<'g>,
    number: usize,
) -> (FeatureId<'g>, FeatureId<'g>, &'g FeatureEdge)
    requires { number < length (built_of graph).edges }
    ensures { edge_said (graph_of graph.entry) number ≡ Some (said_by result) }
{
    content_of_graph(graph.graph);
    let (from, to, edge) = graph.built.edge(number);
    (graph.id(from), graph.id(to), edge)
}

/// Returns the full link of edge `number` if it is conditional.
fn full_link_at<'g>(graph: FeatureGraph<'g>, number: usize) -> Option<ConditionalLink<'g>>
    requires { number < length (built_of graph).edges }
    ensures { MatchOption result (IsFalse (has_facts (offered (graph_of graph.entry) number Full)))
        (λ link. IsTrue (has_facts (offered (graph_of graph.entry) number Full)) × (link_of link ≡ offered (graph_of graph.entry) number Full)) }
{
    let (_, _, edge) = graph.built.edge(number);
    match edge.link(Half::Full) {
        Some(_) => Some(ConditionalLink::new(graph, number, Half::Full)),
        None => None,
    }
}

/// An iterator over the edges between a set's features, each with the ids of its source and target.
#[derive(Drop)]
pub struct Links<'g, 'a> {
    graph: FeatureGraph<'g>,
    numbers: LinksInOrder<'a>,
}

impl<'g, 'a> Model for Links<'g, 'a> {
    ghost use Rattle.std.specs.Prelude.{List, All, ◌<◌, length};
    ghost use Rattle.guppy_packages.specs.Rows.{Text};
    ghost use Rattle.feature_links.specs.Facts.{EdgeFacts};
    ghost use Rattle.feature_labels.specs.Names.{LabelName};

    ghost Value = { List ((Text × LabelName) × (Text × LabelName) × EdgeFacts) };

    ghost use Rattle.feature_graph.specs.Ordered.{edges_said};
    ghost use Rattle.feature_graph.specs.Views.{built_of, graph_of};

    ghost view = { λ it. edges_said (graph_of it.graph) it.numbers };

    ghost invariant = { λ it. All (λ k. k < length (built_of it.graph).edges) it.numbers };
}

impl<'g, 'a> Iterator for Links<'g, 'a> {
    type Item = (FeatureId<'g>, FeatureId<'g>, &'g FeatureEdge);

    ghost next_gives = { YieldsFirstBy said_by (λ rest. rest) };

    ghost remaining = { item_count (λ rest. rest) };

    fn next(&mut self) -> Option<(FeatureId<'g>, FeatureId<'g>, &'g FeatureEdge)> {
        let number = self.numbers.next()?;
        Some(edge_at(self.graph, number))
    }
}

impl<'g, 'a> FusedIterator for Links<'g, 'a> {}

/// An iterator over the full links of the conditional edges between a set's features.
#[derive(Drop)]
pub struct ConditionalLinks<'g, 'a> {
    graph: FeatureGraph<'g>,
    numbers: LinksInOrder<'a>,
}

impl<'g, 'a> Model for ConditionalLinks<'g, 'a> {
    ghost use Rattle.std.specs.Prelude.{List, All, ◌<◌, length};
    ghost use Rattle.feature_graph.specs.LinkValues.{Link};
    ghost use Rattle.feature_graph.specs.Ordered.{full_links};
    ghost use Rattle.feature_graph.specs.Views.{built_of, graph_of};

    ghost Value = { List Link };

    ghost view = { λ it. full_links (graph_of it.graph) it.numbers };

    ghost invariant = { λ it. All (λ k. k < length (built_of it.graph).edges) it.numbers };
}

impl<'g, 'a> Iterator for ConditionalLinks<'g, 'a> {
    type Item = ConditionalLink<'g>;

    ghost next_gives = { YieldsFirstBy link_of (λ rest. rest) };

    ghost remaining = { item_count (λ rest. rest) };

    fn next(&mut self) -> Option<ConditionalLink<'g>> {
        while let Some(number) = self.numbers.next() {
            let link = full_link_at(self.graph, number);
            if link.is_some() {
                return link;
            }
        }
        None
    }
}

impl<'g, 'a> FusedIterator for ConditionalLinks<'g, 'a> {}
