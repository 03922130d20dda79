//! Sets of features.
ghost use Rattle.std.specs.Prelude.{◌≡◌, ◌↔◌, IsTrue, IfSome, MatchResult, Some, count_by, length};
ghost use Rattle.std.specs.Iterator.{YieldsFirstBy, UpTo, item_count};
ghost use Rattle.std.specs.Iterator.SizeHint.{IsWithinCount};
ghost use Rattle.feature_labels.specs.Names.{id_of};
ghost use Rattle.feature_core.specs.Nodes.{nodes};
ghost use Rattle.feature_core.specs.Errors.{refusal_of};
ghost use Rattle.feature_graph.specs.Names.{RefusesName, TellsMember};

mod algebra;
mod links;
mod lists;
mod ordered;
mod package_set;
mod packages;
mod packages_with_features;
mod parts;
mod roots;

use crate::graph::FeatureGraph;
use digraphs::{IxBitSet, Ones};
use feature_core::Error;
use feature_labels::FeatureId;
pub use links::{ConditionalLinks, Links};
pub use ordered::{FeatureIds, Features};
pub use packages::InitialPackages;
pub use packages_with_features::PackagesWithFeatures;
pub use roots::{RootFeatures, RootIds};
use std::fmt;
use std::iter::FusedIterator;
use std::marker::Model;

/// A set of features of one graph.
#[derive(Drop)]
pub struct FeatureSet<'g> {
    graph: FeatureGraph<'g>,
    members: IxBitSet,
}

impl<'g> Model for FeatureSet<'g> {
    ghost use Rattle.feature_graph.specs.Values.{Set};

    ghost Value = { Set };

    ghost use Rattle.std.specs.Prelude.{◌≡◌, length};
    ghost use Rattle.feature_core.specs.Nodes.{nodes};
    ghost use Rattle.feature_graph.specs.Views.{graph_of, tables_of_graph};

    ghost view = { λ s. record { graph = graph_of s.graph; members = s.members } };

    ghost invariant = { λ s. length s.members ≡ length (nodes (tables_of_graph s.graph)) };
}

impl<'g> FeatureSet<'g> {
    ghost use Rattle.feature_graph.specs.Views.{graph_of, tables_of_graph};

    /// Returns the set of the nodes in `members`.
    pub(crate) fn new(graph: FeatureGraph<'g>, members: IxBitSet) -> Self
        requires { length members ≡ length (nodes (tables_of_graph graph)) }
        ensures graph { result.graph ≡ graph_of graph.entry }
        ensures members { result.members ≡ members }
    {
        FeatureSet { graph, members }
    }

    /// Returns the members as node numbers, in a bit set with one bit for each feature of the graph.
    pub(crate) fn members(&self) -> &IxBitSet
        ensures value { result.now ≡ self.now.members }
        ensures size { length self.now.members ≡ length (nodes self.now.graph.tables) }
    {
        &self.members
    }

    /// Returns the graph of the features.
    pub fn graph(&self) -> &FeatureGraph<'g>
        ensures value { graph_of result.now ≡ self.now.graph }
        ensures size { length self.now.members ≡ length (nodes self.now.graph.tables) }
    {
        &self.graph
    }

    /// Returns the number of features in the set.
    pub fn len(&self) -> usize
        ensures { result ≡ count_by (λ b. b) self.now.members }
    {
        self.members.count()
    }

    /// Returns true if the set is empty.
    pub fn is_empty(&self) -> bool
        ensures { IsTrue result ↔ (count_by (λ b. b) self.now.members ≡ 0) }
    {
        self.len() == 0
    }

    /// Returns true if the set has the feature, or `UnknownFeatureId` if the graph lacks it.
    pub fn contains<'a>(&self, id: FeatureId<'a>) -> Result<bool, Error<'a>>
        ensures { MatchResult result
            (λ answer. TellsMember self.now.graph.tables self.now.members (id_of id.entry) answer)
            (λ e. RefusesName self.now.graph.tables (id_of id.entry) (refusal_of e)) }
    {
        match self.graph.node(id) {
            Some(node) => Ok(self.members.contains(node)),
            None => Err(Error::UnknownFeatureId(id)),
        }
    }
}

impl<'g> FeatureSet<'g> {
    ghost use Rattle.feature_graph.specs.Names.{names_of_members};

    /// Returns an iterator over the ids of the set's features, in the order of their nodes.
    pub fn ids_by_node(&self) -> IdsByNode<'g, '_>
        ensures { result ≡ names_of_members self.now.graph.tables self.now.members }
    {
        IdsByNode {
            graph: self.graph,
            numbers: self.members.ones(),
        }
    }
}

/// An iterator over the ids of a set's features, in the order of their nodes.
#[derive(Drop)]
pub struct IdsByNode<'g, 'a> {
    graph: FeatureGraph<'g>,
    numbers: Ones<'a>,
}

impl<'g, 'a> Model for IdsByNode<'g, 'a> {
    ghost use Rattle.std.specs.Prelude.{List, ◌<◌, length};
    ghost use Rattle.std.specs.List.{AllByRecursion};
    ghost use Rattle.guppy_packages.specs.Rows.{Text};
    ghost use Rattle.feature_core.specs.Nodes.{nodes};
    ghost use Rattle.feature_labels.specs.Names.{LabelName};

    ghost Value = { List (Text × LabelName) };

    ghost use Rattle.feature_graph.specs.Views.{tables_of_graph};
    ghost use Rattle.feature_graph.specs.Names.{names_of_nodes};

    ghost view = { λ it. names_of_nodes (tables_of_graph it.graph) it.numbers };

    ghost invariant = { λ it. AllByRecursion (λ n. n < length (nodes (tables_of_graph it.graph))) it.numbers };
}

impl<'g, 'a> Iterator for IdsByNode<'g, 'a> {
    type Item = FeatureId<'g>;

    ghost next_gives = { YieldsFirstBy id_of (λ rest. rest) };

    ghost remaining = { item_count (λ rest. rest) };

    fn next(&mut self) -> Option<FeatureId<'g>> {
        let node = self.numbers.next()?;
        Some(self.graph.id(node))
    }

    fn size_hint(&self) -> (usize, Option<usize>)
        ensures lower { IsWithinCount result.0 (item_count (λ rest. rest) self.now) }
        ensures upper { IfSome result.1 (UpTo (item_count (λ rest. rest) self.now)) }
        ensures exact { result ≡ (length self.now, Some (length self.now)) }
    {
        let len = self.len();
        (len, Some(len))
    }
}

impl<'g, 'a> ExactSizeIterator for IdsByNode<'g, 'a> {
    fn len(&self) -> usize {
        self.numbers.len()
    }
}

impl<'g, 'a> FusedIterator for IdsByNode<'g, 'a> {}

impl fmt::Debug for FeatureSet<'_> {
    fn fmt<W: fmt::Write>(&self, f: &mut fmt::Formatter<W>) -> fmt::Result {
        f.debug_struct("FeatureSet")
            .field("graph", &self.graph)
            .field("len", &self.len())
            .finish()
    }
}
