//! Queries: the features to start from, and a direction.
ghost use Rattle.std.specs.Prelude.{◌≡◌, IfOk, IfErr, MatchResult, map};
ghost use Rattle.feature_labels.specs.Names.{id_of};
ghost use Rattle.feature_core.specs.Errors.{refusal_of};
ghost use Rattle.feature_graph.specs.Packages.{RefusesPackageId, TellsPackage, member_packages};
ghost use Rattle.guppy_packages.specs.PackageSets.{numbered};
ghost use Rattle.feature_graph.specs.Names.{AreKnown, RefusesNames, HoldsExactly};

pub(crate) mod context;
pub(crate) mod filter;
pub(crate) mod standard;
pub(crate) mod visitor;
mod workspace;

use crate::graph::FeatureGraph;
use crate::set::{FeatureSet, InitialPackages};
use feature_core::Error;
use feature_labels::FeatureId;
use guppy_packages::{DependencyDirection, PackageId};
use std::alloc::Global;
use std::fmt;
use std::marker::Model;

/// A query over a feature graph: the features to start from, and the direction in which edges are followed.
#[derive(Drop)]
pub struct FeatureQuery<'g> {
    pub(crate) direction: DependencyDirection,
    pub(crate) initials: FeatureSet<'g>,
}

impl<'g> Model for FeatureQuery<'g> {
    ghost use Rattle.feature_graph.specs.Values.{Query};

    ghost Value = { Query };

    ghost view = { λ q. record { graph = q.initials.graph; direction = q.direction; initials = q.initials.members } };
}

impl<'g> FeatureQuery<'g> {
    ghost use Rattle.feature_graph.specs.Views.{graph_of};

    /// Returns the query from `initials` in `direction`.
    pub(crate) fn new(initials: FeatureSet<'g>, direction: DependencyDirection) -> Self
        ensures { result ≡ record { graph = initials.entry.graph; direction = direction; initials = initials.entry.members } }
    {
        FeatureQuery {
            direction,
            initials,
        }
    }

    /// Returns the graph of the query.
    pub fn graph(&self) -> &FeatureGraph<'g>
        ensures { graph_of result.now ≡ self.now.graph }
    {
        self.initials.graph()
    }

    /// Returns the direction in which edges are followed.
    pub fn direction(&self) -> DependencyDirection
        ensures { result ≡ self.now.direction }
    {
        self.direction
    }

    /// Returns the features to start from.
    pub fn initials(&self) -> &FeatureSet<'g>
        ensures { result.now ≡ record { graph = self.now.graph; members = self.now.initials } }
    {
        &self.initials
    }

    /// Returns an iterator over the packages of the features to start from, by number.
    pub fn initial_packages(&self) -> InitialPackages<'g, '_>
        ensures { result ≡ numbered self.now.graph.tables (member_packages self.now.graph.tables self.now.initials) }
    {
        self.initials.member_packages()
    }

    /// Returns true if the query starts from a feature of the package. The error is `UnknownPackageId` if no package
    /// has this id.
    pub fn starts_from_package<'a>(&self, package_id: &'a PackageId) -> Result<bool, Error<'a>>
        ensures { MatchResult result
            (λ answer. TellsPackage self.now.graph.tables self.now.initials package_id.now answer)
            (λ e. RefusesPackageId self.now.graph.tables package_id.now (refusal_of e)) }
    {
        self.initials.contains_package(package_id)
    }
}

impl<'g> FeatureGraph<'g> {
    ghost use Rattle.feature_graph.specs.Views.{graph_of, tables_of_graph};

    /// Returns the query from `feature_ids` in `direction`. The error is `UnknownFeatureId` with the first unknown id,
    /// found before any allocation, or `Memory`.
    pub fn query_directed<'a>(
        &self,
        alloc: Global,
        feature_ids: &[FeatureId<'a>],
        direction: DependencyDirection,
    ) -> Result<FeatureQuery<'g>, Error<'a>>
        ensures graph { IfOk result (λ query. query.graph ≡ graph_of self.now) }
        ensures direction { IfOk result (λ query. query.direction ≡ direction) }
        ensures known { IfOk result (λ query. AreKnown (tables_of_graph self.now) (map id_of feature_ids.now)) }
        ensures initials { IfOk result (λ query. HoldsExactly (tables_of_graph self.now) query.initials (map id_of feature_ids.now)) }
        ensures refused { IfErr result (λ e. RefusesNames (tables_of_graph self.now) (map id_of feature_ids.now) (refusal_of e)) }
    {
        let initials = self.resolve_ids(alloc, feature_ids)?;
        Ok(FeatureQuery::new(initials, direction))
    }

    /// Returns the query from `feature_ids` to their dependencies. Errors are those of `query_directed`.
    pub fn query_forward<'a>(
        &self,
        alloc: Global,
        feature_ids: &[FeatureId<'a>],
    ) -> Result<FeatureQuery<'g>, Error<'a>>
        ensures graph { IfOk result (λ query. query.graph ≡ graph_of self.now) }
        ensures direction { IfOk result (λ query. query.direction ≡ DependencyDirection.Forward) }
        ensures known { IfOk result (λ query. AreKnown (tables_of_graph self.now) (map id_of feature_ids.now)) }
        ensures initials { IfOk result (λ query. HoldsExactly (tables_of_graph self.now) query.initials (map id_of feature_ids.now)) }
        ensures refused { IfErr result (λ e. RefusesNames (tables_of_graph self.now) (map id_of feature_ids.now) (refusal_of e)) }
    {
        self.query_directed(alloc, feature_ids, DependencyDirection::Forward)
    }

    /// Returns the query from `feature_ids` to the features that depend on them. Errors are those of `query_directed`.
    pub fn query_reverse<'a>(
        &self,
        alloc: Global,
        feature_ids: &[FeatureId<'a>],
    ) -> Result<FeatureQuery<'g>, Error<'a>>
        ensures graph { IfOk result (λ query. query.graph ≡ graph_of self.now) }
        ensures direction { IfOk result (λ query. query.direction ≡ DependencyDirection.Reverse) }
        ensures known { IfOk result (λ query. AreKnown (tables_of_graph self.now) (map id_of feature_ids.now)) }
        ensures initials { IfOk result (λ query. HoldsExactly (tables_of_graph self.now) query.initials (map id_of feature_ids.now)) }
        ensures refused { IfErr result (λ e. RefusesNames (tables_of_graph self.now) (map id_of feature_ids.now) (refusal_of e)) }
    {
        self.query_directed(alloc, feature_ids, DependencyDirection::Reverse)
    }
}

impl<'g> FeatureQuery<'g> {
    /// Returns an equal query; `Memory` is the only error.
    pub fn try_clone(&self, alloc: Global) -> Result<FeatureQuery<'g>, Error<'static>>
        ensures same { IfOk result (λ query. query ≡ self.now) }
        ensures refused { IfErr result (λ e. e ≡ Error.Memory) }
    {
        let initials = self.initials();
        let members = initials.members().try_clone(alloc)?;
        let copy = FeatureSet::new(*initials.graph(), members);
        Ok(FeatureQuery::new(copy, self.direction()))
    }
}

impl fmt::Debug for FeatureQuery<'_> {
    fn fmt<W: fmt::Write>(&self, f: &mut fmt::Formatter<W>) -> fmt::Result {
        f.debug_struct("FeatureQuery")
            .field("direction", &self.direction)
            .field("initials", &self.initials)
            .finish()
    }
}
