//! The roots of a set.
ghost use Rattle.std.specs.Prelude.{◌≡◌, ◌<◌, IfOk, IfErr, IfSome, Some, All, length};
ghost use Rattle.std.specs.Iterator.{YieldsFirstBy, UpTo, item_count};
ghost use Rattle.std.specs.Iterator.SizeHint.{IsWithinCount};
ghost use Rattle.feature_labels.specs.Names.{id_of};
ghost use Rattle.feature_core.specs.Nodes.{nodes};
ghost use Rattle.guppy_support.specs.Views.{roots_in_order};
ghost use Rattle.feature_graph.specs.Ordered.{AtOrder, edges_of, feature_of, features_named, root_names};
ghost use Rattle.guppy_packages.specs.PackageSets.{reading_of};

use crate::graph::FeatureGraph;
use crate::graph::metadata::FeatureMetadata;
use crate::link::feature_at;
use crate::set::FeatureSet;
use crate::set::ordered::reading;
use feature_core::Error;
use feature_labels::FeatureId;
use guppy_packages::DependencyDirection;
use guppy_support::laws::views_stay_within;
use guppy_support::roots;
use std::alloc::{AllocError, Global};
use std::iter::FusedIterator;
use std::marker::Model;
use std::vec;

impl<'g> FeatureSet<'g> {
    /// Returns the nodes of the set's roots, in order.
    fn root_nodes(
        &self,
        alloc: Global,
        direction: DependencyDirection,
    ) -> Result<Vec<usize>, AllocError>
        ensures order { IfOk result (λ found. AtOrder self.now.graph (λ o. found.items ≡ roots_in_order (reading_of direction) (edges_of self.now.graph) o self.now.members)) }
        ensures within { IfOk result (λ found. All (λ n. n < length (nodes self.now.graph.tables)) found.items) }
    {
        views_stay_within();
        let built = self.graph.built;
        roots(
            alloc,
            built.order(),
            built.digraph(),
            &self.members,
            reading(direction),
        )
    }

    /// Returns an iterator over the ids of the set's roots, in the order of `feature_ids`; `Memory` is the only error.
    ///
    /// A feature is a root if its component has no edge to a feature of the set outside of the component. In reverse,
    /// it is a root if its component has no edge from such a feature. The components are those of the whole graph.
    pub fn root_ids(
        &self,
        alloc: Global,
        direction: DependencyDirection,
    ) -> Result<RootIds<'g>, Error<'static>>
        ensures listed { IfOk result (λ ids. AtOrder self.now.graph (λ o. ids ≡ root_names direction self.now o)) }
        ensures refused { IfErr result (λ e. e ≡ Error.Memory) }
    {
        let nodes = self.root_nodes(alloc, direction)?;
        Ok(RootIds {
            graph: self.graph,
            numbers: nodes.into_iter(),
        })
    }

    /// Returns an iterator over the set's roots, in the order of `root_ids`; `Memory` is the only error.
    pub fn root_features(
        &self,
        alloc: Global,
        direction: DependencyDirection,
    ) -> Result<RootFeatures<'g>, Error<'static>>
        ensures listed { IfOk result (λ features. AtOrder self.now.graph (λ o. features ≡ features_named self.now.graph.tables (root_names direction self.now o))) }
        ensures refused { IfErr result (λ e. e ≡ Error.Memory) }
    {
        let nodes = self.root_nodes(alloc, direction)?;
        Ok(RootFeatures {
            graph: self.graph,
            numbers: nodes.into_iter(),
        })
    }
}

/// An iterator over the ids of a set's roots.
#[derive(Drop)]
pub struct RootIds<'g> {
    graph: FeatureGraph<'g>,
    numbers: vec::IntoIter<usize>,
}

impl<'g> Model for RootIds<'g> {
    ghost use Rattle.std.specs.Prelude.{List, All, ◌<◌, length};
    ghost use Rattle.std.specs.Vec.Iter.{into_iter_items};
    ghost use Rattle.guppy_packages.specs.Rows.{Text};
    ghost use Rattle.feature_core.specs.Nodes.{nodes};
    ghost use Rattle.feature_labels.specs.Names.{LabelName};

    ghost Value = { List (Text × LabelName) };

    ghost use Rattle.feature_graph.specs.Views.{tables_of_graph};
    ghost use Rattle.feature_graph.specs.Names.{names_of_nodes};

    ghost view = { λ it. names_of_nodes (tables_of_graph it.graph) (into_iter_items it.numbers) };

    ghost invariant = { λ it. All (λ n. n < length (nodes (tables_of_graph it.graph))) (into_iter_items it.numbers) };
}

impl<'g> Iterator for RootIds<'g> {
    type Item = FeatureId<'g>;

    ghost next_gives = { YieldsFirstBy id_of (λ rest. rest) };

    ghost remaining = { item_count (λ rest. rest) };

    fn next(&mut self) -> Option<FeatureId<'g>> {
        let node = self.numbers.next()?;
        Some(self.graph.id(node))
    }

    fn size_hint(&self) -> (usize, Option<usize>)
        ensures lower { IsWithinCount result.0 (item_count (λ rest. rest) self.now) }
        ensures upper { IfSome result.1 (UpTo (item_count (λ rest. rest) self.now)) }
        ensures exact { result ≡ (length self.now, Some (length self.now)) }
    {
        let len = self.len();
        (len, Some(len))
    }
}

impl<'g> ExactSizeIterator for RootIds<'g> {
    fn len(&self) -> usize {
        self.numbers.len()
    }
}

impl<'g> FusedIterator for RootIds<'g> {}

/// An iterator over the roots of a set.
#[derive(Drop)]
pub struct RootFeatures<'g> {
    graph: FeatureGraph<'g>,
    numbers: vec::IntoIter<usize>,
}

impl<'g> Model for RootFeatures<'g> {
    ghost use Rattle.std.specs.Prelude.{List, All, ◌<◌, length};
    ghost use Rattle.std.specs.Vec.Iter.{into_iter_items};
    ghost use Rattle.guppy_packages.specs.Rows.{Text};
    ghost use Rattle.guppy_packages.specs.Tables.{Tables};
    ghost use Rattle.feature_core.specs.Nodes.{nodes};
    ghost use Rattle.feature_labels.specs.Names.{LabelName};

    ghost Value = { List (Tables × (Text × LabelName)) };

    ghost use Rattle.feature_graph.specs.Views.{tables_of_graph};
    ghost use Rattle.feature_graph.specs.Names.{names_of_nodes};
    ghost use Rattle.feature_graph.specs.Ordered.{features_named};

    ghost view = { λ it. features_named (tables_of_graph it.graph) (names_of_nodes (tables_of_graph it.graph) (into_iter_items it.numbers)) };

    ghost invariant = { λ it. All (λ n. n < length (nodes (tables_of_graph it.graph))) (into_iter_items it.numbers) };
}

impl<'g> Iterator for RootFeatures<'g> {
    type Item = FeatureMetadata<'g>;

    ghost next_gives = { YieldsFirstBy feature_of (λ rest. rest) };

    ghost remaining = { item_count (λ rest. rest) };

    fn next(&mut self) -> Option<FeatureMetadata<'g>> {
        let node = self.numbers.next()?;
        Some(feature_at(self.graph, node))
    }

    fn size_hint(&self) -> (usize, Option<usize>)
        ensures lower { IsWithinCount result.0 (item_count (λ rest. rest) self.now) }
        ensures upper { IfSome result.1 (UpTo (item_count (λ rest. rest) self.now)) }
        ensures exact { result ≡ (length self.now, Some (length self.now)) }
    {
        let len = self.len();
        (len, Some(len))
    }
}

impl<'g> ExactSizeIterator for RootFeatures<'g> {
    fn len(&self) -> usize {
        self.numbers.len()
    }
}

impl<'g> FusedIterator for RootFeatures<'g> {}
