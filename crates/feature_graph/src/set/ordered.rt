//! The features of a set, in the order of its graph.
ghost use Rattle.std.specs.Prelude.{◌≡◌, ◌<◌, IfSome, Some, All, length};
ghost use Rattle.std.specs.Iterator.{YieldsFirstBy, UpTo, item_count};
ghost use Rattle.std.specs.Iterator.SizeHint.{IsWithinCount};
ghost use Rattle.feature_labels.specs.Names.{id_of};
ghost use Rattle.feature_core.specs.Nodes.{nodes};
ghost use Rattle.feature_graph.specs.Ordered.{AtOrder, feature_of, features_named, ordered_names, ordered_nodes};
ghost use Rattle.guppy_packages.specs.PackageSets.{reading_of};

use crate::graph::FeatureGraph;
use crate::graph::metadata::FeatureMetadata;
use crate::link::feature_at;
use crate::set::FeatureSet;
use feature_labels::FeatureId;
use guppy_packages::DependencyDirection;
use guppy_support::laws::views_stay_within;
use guppy_support::{InOrder, Reading};
use std::iter::FusedIterator;
use std::marker::Model;

/// Returns the reading of the graph's order for a direction.
pub(crate) fn reading(direction: DependencyDirection) -> Reading
    ensures { result ≡ reading_of direction }
{
    match direction {
        DependencyDirection::Forward => Reading::Forward,
        DependencyDirection::Reverse => Reading::Backward,
    }
}

impl<'g> FeatureSet<'g> {
    /// Returns the nodes of the set's features, in order.
    pub(crate) fn nodes_in_order(&self, direction: DependencyDirection) -> InOrder<'_>
        ensures order { AtOrder self.now.graph (λ o. result ≡ ordered_nodes direction self.now o) }
        ensures within { All (λ n. n < length (nodes self.now.graph.tables)) result }
    {
        views_stay_within();
        InOrder::new(self.graph.built.order(), &self.members, reading(direction))
    }

    /// Returns an iterator over the ids of the set's features. Forward, they are in the order of the graph: a feature
    /// is before its dependencies, except within cycles. In reverse, they are exactly backwards.
    pub fn feature_ids(&self, direction: DependencyDirection) -> FeatureIds<'g, '_>
        ensures { AtOrder self.now.graph (λ o. result ≡ ordered_names direction self.now o) }
    {
        FeatureIds {
            graph: self.graph,
            numbers: self.nodes_in_order(direction),
        }
    }

    /// Returns an iterator over the set's features, in the order of `feature_ids`.
    pub fn features(&self, direction: DependencyDirection) -> Features<'g, '_>
        ensures { AtOrder self.now.graph (λ o. result ≡ features_named self.now.graph.tables (ordered_names direction self.now o)) }
    {
        Features {
            graph: self.graph,
            numbers: self.nodes_in_order(direction),
        }
    }
}

/// An iterator over the ids of a set's features, in the order of the graph or backwards.
#[derive(Drop)]
pub struct FeatureIds<'g, 'a> {
    graph: FeatureGraph<'g>,
    numbers: InOrder<'a>,
}

impl<'g, 'a> Model for FeatureIds<'g, 'a> {
    ghost use Rattle.std.specs.Prelude.{List, All, ◌<◌, length};
    ghost use Rattle.guppy_packages.specs.Rows.{Text};
    ghost use Rattle.feature_core.specs.Nodes.{nodes};
    ghost use Rattle.feature_labels.specs.Names.{LabelName};

    ghost Value = { List (Text × LabelName) };

    ghost use Rattle.feature_graph.specs.Views.{tables_of_graph};
    ghost use Rattle.feature_graph.specs.Names.{names_of_nodes};

    ghost view = { λ it. names_of_nodes (tables_of_graph it.graph) it.numbers };

    ghost invariant = { λ it. All (λ n. n < length (nodes (tables_of_graph it.graph))) it.numbers };
}

impl<'g, 'a> Iterator for FeatureIds<'g, 'a> {
    type Item = FeatureId<'g>;

    ghost next_gives = { YieldsFirstBy id_of (λ rest. rest) };

    ghost remaining = { item_count (λ rest. rest) };

    fn next(&mut self) -> Option<FeatureId<'g>> {
        let node = self.numbers.next()?;
        Some(self.graph.id(node))
    }

    fn size_hint(&self) -> (usize, Option<usize>)
        ensures lower { IsWithinCount result.0 (item_count (λ rest. rest) self.now) }
        ensures upper { IfSome result.1 (UpTo (item_count (λ rest. rest) self.now)) }
        ensures exact { result ≡ (length self.now, Some (length self.now)) }
    {
        let len = self.len();
        (len, Some(len))
    }
}

impl<'g, 'a> ExactSizeIterator for FeatureIds<'g, 'a> {
    fn len(&self) -> usize {
        self.numbers.len()
    }
}

impl<'g, 'a> FusedIterator for FeatureIds<'g, 'a> {}

/// An iterator over the features of a set, in the order of the graph or backwards.
#[derive(Drop)]
pub struct Features<'g, 'a> {
    graph: FeatureGraph<'g>,
    numbers: InOrder<'a>,
}

impl<'g, 'a> Model for Features<'g, 'a> {
    ghost use Rattle.std.specs.Prelude.{List, All, ◌<◌, length};
    ghost use Rattle.guppy_packages.specs.Rows.{Text};
    ghost use Rattle.guppy_packages.specs.Tables.{Tables};
    ghost use Rattle.feature_core.specs.Nodes.{nodes};
    ghost use Rattle.feature_labels.specs.Names.{LabelName};

    ghost Value = { List (Tables × (Text × LabelName)) };

    ghost use Rattle.feature_graph.specs.Views.{tables_of_graph};
    ghost use Rattle.feature_graph.specs.Names.{names_of_nodes};
    ghost use Rattle.feature_graph.specs.Ordered.{features_named};

    ghost view = { λ it. features_named (tables_of_graph it.graph) (names_of_nodes (tables_of_graph it.graph) it.numbers) };

    ghost invariant = { λ it. All (λ n. n < length (nodes (tables_of_graph it.graph))) it.numbers };
}

impl<'g, 'a> Iterator for Features<'g, 'a> {
    type Item = FeatureMetadata<'g>;

    ghost next_gives = { YieldsFirstBy feature_of (λ rest. rest) };

    ghost remaining = { item_count (λ rest. rest) };

    fn next(&mut self) -> Option<FeatureMetadata<'g>> {
        let node = self.numbers.next()?;
        Some(feature_at(self.graph, node))
    }

    fn size_hint(&self) -> (usize, Option<usize>)
        ensures lower { IsWithinCount result.0 (item_count (λ rest. rest) self.now) }
        ensures upper { IfSome result.1 (UpTo (item_count (λ rest. rest) self.now)) }
        ensures exact { result ≡ (length self.now, Some (length self.now)) }
    {
        let len = self.len();
        (len, Some(len))
    }
}

impl<'g, 'a> ExactSizeIterator for Features<'g, 'a> {
    fn len(&self) -> usize {
        self.numbers.len()
    }
}

impl<'g, 'a> FusedIterator for Features<'g, 'a> {}
