//! Tests whether one feature depends on another.
ghost use Rattle.std.specs.Prelude.{◌≡◌, ◌<◌, ◌∷◌, [], IfOk, IfErr, length};
ghost use Rattle.digraphs.specs.Paths.{HasEdge, Path};
ghost use Rattle.feature_labels.specs.Names.{id_of};
ghost use Rattle.feature_core.specs.Errors.{refusal_of};
ghost use Rattle.feature_core.specs.Nodes.{nodes};
ghost use Rattle.feature_graph.specs.Names.{RefusesNames};
ghost use Rattle.feature_graph.specs.Ordered.{edges_of};
ghost use Rattle.feature_graph.specs.Tied.{AreNodesOf, RefusesTwo, TellsTied, cycles_of};
ghost use Rattle.feature_graph.specs.Views.{graph_of, tables_of_graph};

use crate::cycles::Cycles;
use crate::graph::FeatureGraph;
use feature_core::Error;
use feature_labels::FeatureId;
use guppy_support::depends_on;
use std::alloc::Global;

impl<'g> FeatureGraph<'g> {
    /// Returns the nodes of `a` and `b`. The error is `UnknownFeatureId` with the first of them that the graph lacks.
    pub(crate) fn nodes_of_two<'a>(
        &self,
        a: FeatureId<'a>,
        b: FeatureId<'a>,
    ) -> Result<(usize, usize), Error<'a>>
        ensures nodes { IfOk result (λ p. AreNodesOf (tables_of_graph self.now) (id_of a.entry) (id_of b.entry) p.0 p.1) }
        ensures first { IfOk result (λ p. p.0 < length (nodes (tables_of_graph self.now))) }
        ensures second { IfOk result (λ p. p.1 < length (nodes (tables_of_graph self.now))) }
        ensures refused { IfErr result (λ e. RefusesTwo (tables_of_graph self.now) (id_of a.entry) (id_of b.entry) (refusal_of e)) }
    {
        let Some(first) = self.node(a) else {
            return Err(Error::UnknownFeatureId(a));
        };
        let Some(second) = self.node(b) else {
            return Err(Error::UnknownFeatureId(b));
        };
        Ok((first, second))
    }

    /// Returns true if an edge leads from `a` to `b`. The error is `UnknownFeatureId` with the first of them that the
    /// graph lacks.
    pub fn directly_depends_on<'a>(
        &self,
        a: FeatureId<'a>,
        b: FeatureId<'a>,
    ) -> Result<bool, Error<'a>>
        ensures told { IfOk result (λ answer. TellsTied (HasEdge (edges_of (graph_of self.now))) (tables_of_graph self.now) (id_of a.entry) (id_of b.entry) answer) }
        ensures refused { IfErr result (λ e. RefusesTwo (tables_of_graph self.now) (id_of a.entry) (id_of b.entry) (refusal_of e)) }
    {
        let (first, second) = self.nodes_of_two(a, b)?;
        Ok(self.built.digraph().edge_between(first, second).is_some())
    }

    /// Returns true if a path of edges leads from `a` to `b`; from a feature to itself the empty path does. The error
    /// is `UnknownFeatureId` with the first of them that the graph lacks, found before any allocation, or `Memory`.
    pub fn depends_on<'a>(
        &self,
        alloc: Global,
        a: FeatureId<'a>,
        b: FeatureId<'a>,
    ) -> Result<bool, Error<'a>>
        ensures told { IfOk result (λ answer. TellsTied (Path (edges_of (graph_of self.now))) (tables_of_graph self.now) (id_of a.entry) (id_of b.entry) answer) }
        ensures refused { IfErr result (λ e. RefusesNames (tables_of_graph self.now) (id_of a.entry ∷ id_of b.entry ∷ []) (refusal_of e)) }
    {
        let (first, second) = self.nodes_of_two(a, b)?;
        match depends_on(alloc, self.built.digraph(), first, second) {
            Ok(answer) => Ok(answer),
            Err(_) => Err(Error::Memory),
        }
    }

    /// Returns the cycles of the graph.
    pub fn cycles(&self) -> Cycles<'g>
        ensures { cycles_of result ≡ graph_of self.now }
    {
        Cycles::new(*self)
    }
}
