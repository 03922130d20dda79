//! Sets without a visitor: of all features, of none, of listed ones, and of those reachable over all edges.
ghost use Rattle.std.specs.Prelude.{◌≡◌, ◌↔◌, ℕ, IsTrue, IfOk, IfErr, true, false, length, map, replicate};
ghost use Rattle.digraphs.specs.Bits.{has};
ghost use Rattle.feature_labels.specs.Names.{id_of};
ghost use Rattle.feature_core.specs.Errors.{refusal_of};
ghost use Rattle.feature_core.specs.Nodes.{nodes};
ghost use Rattle.feature_core.specs.Pairs.{Reach};
ghost use Rattle.feature_graph.specs.Names.{AreKnown, RefusesNames, HoldsExactly};

use crate::graph::FeatureGraph;
use crate::graph::ids::{first_unknown, set_of_ids};
use crate::query::FeatureQuery;
use crate::set::FeatureSet;
use digraphs::IxBitSet;
use feature_core::{EdgeChoice, Error, walk_all};
use feature_labels::FeatureId;
use guppy_packages::DependencyDirection;
use std::alloc::Global;

impl<'g> FeatureGraph<'g> {
    ghost use Rattle.feature_graph.specs.Views.{tables_of_graph, graph_of};

    /// Returns the nodes reachable from `initials` over all edges, including `initials`; `Memory` is the only error.
    pub(crate) fn walk(
        &self,
        alloc: Global,
        direction: DependencyDirection,
        initials: &IxBitSet,
    ) -> Result<IxBitSet, Error<'static>>
        requires { length initials.now ≡ length (nodes (tables_of_graph self.now)) }
        ensures size { IfOk result (λ set. length set ≡ length (nodes (tables_of_graph self.now))) }
        ensures reach { IfOk result (λ set. (n : ℕ) → IsTrue (has set n) ↔ Reach (tables_of_graph self.now) direction (has initials.now) n) }
        ensures refused { IfErr result (λ e. e ≡ Error.Memory) }
    {
        walk_all(alloc, self.built, direction, initials, EdgeChoice::All)
    }

    /// Returns the set of all features; `Memory` is the only error.
    pub fn resolve_all(&self, alloc: Global) -> Result<FeatureSet<'g>, Error<'static>>
        ensures graph { IfOk result (λ set. set.graph ≡ graph_of self.now) }
        ensures members { IfOk result (λ set. set.members ≡ replicate (length (nodes (tables_of_graph self.now))) true) }
        ensures refused { IfErr result (λ e. e ≡ Error.Memory) }
    {
        let members = IxBitSet::full(alloc, self.feature_count())?;
        Ok(FeatureSet::new(*self, members))
    }

    /// Returns the empty set; `Memory` is the only error.
    pub fn resolve_none(&self, alloc: Global) -> Result<FeatureSet<'g>, Error<'static>>
        ensures graph { IfOk result (λ set. set.graph ≡ graph_of self.now) }
        ensures members { IfOk result (λ set. set.members ≡ replicate (length (nodes (tables_of_graph self.now))) false) }
        ensures refused { IfErr result (λ e. e ≡ Error.Memory) }
    {
        let members = IxBitSet::empty(alloc, self.feature_count())?;
        Ok(FeatureSet::new(*self, members))
    }

    /// Returns the set of exactly the features in `feature_ids`; no base is added. The error is `UnknownFeatureId` with
    /// the first unknown id, found before any allocation, or `Memory`.
    pub fn resolve_ids<'a>(
        &self,
        alloc: Global,
        feature_ids: &[FeatureId<'a>],
    ) -> Result<FeatureSet<'g>, Error<'a>>
        ensures graph { IfOk result (λ set. set.graph ≡ graph_of self.now) }
        ensures known { IfOk result (λ set. AreKnown (tables_of_graph self.now) (map id_of feature_ids.now)) }
        ensures members { IfOk result (λ set. HoldsExactly (tables_of_graph self.now) set.members (map id_of feature_ids.now)) }
        ensures refused { IfErr result (λ e. RefusesNames (tables_of_graph self.now) (map id_of feature_ids.now) (refusal_of e)) }
    {
        if let Some(id) = first_unknown(*self, feature_ids) {
            return Err(Error::UnknownFeatureId(id));
        }
        let members = set_of_ids(alloc, *self, feature_ids)?;
        Ok(FeatureSet::new(*self, members))
    }
}

impl<'g> FeatureQuery<'g> {
    /// Returns the features reachable from the initial ones over all edges, including them; `Memory` is the only error.
    pub fn resolve(self, alloc: Global) -> Result<FeatureSet<'g>, Error<'static>>
        ensures graph { IfOk result (λ set. set.graph ≡ self.entry.graph) }
        ensures size { IfOk result (λ set. length set.members ≡ length (nodes self.entry.graph.tables)) }
        ensures reach { IfOk result (λ set. (n : ℕ) → IsTrue (has set.members n) ↔ Reach self.entry.graph.tables self.entry.direction (has self.entry.initials) n) }
        ensures refused { IfErr result (λ e. e ≡ Error.Memory) }
    {
        let graph = *self.initials.graph();
        let members = graph.walk(alloc, self.direction, self.initials.members())?;
        Ok(FeatureSet::new(graph, members))
    }
}
