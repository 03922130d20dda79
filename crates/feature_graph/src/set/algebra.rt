//! Operations on sets: equality, and combinations of two sets.
ghost use Rattle.std.specs.Prelude.{◌≡◌, ◌↔◌, ◌&&◌, ◌||◌, IsTrue, IfOk, IfErr};
ghost use Rattle.std.specs.Cmp.{partial_equiv_from_equiv};
ghost use Rattle.digraphs.specs.Bits.{one_alone};
ghost use Rattle.feature_graph.specs.SetValues.{SameGraph, AreEqualSets, IsCombined, first_alone, set_eq, set_eq_equiv};

use crate::query::FeatureQuery;
use crate::set::FeatureSet;
use feature_core::Error;
use guppy_packages::DependencyDirection;
use std::alloc::Global;

impl<'g> FeatureSet<'g> {
    /// Returns true if the graphs of the two sets count as one: they were built under one stamp, and have the same
    /// features in the same order. Their addresses in memory don't matter.
    pub fn same_graph(&self, other: &FeatureSet<'_>) -> bool
        ensures { IsTrue result ↔ SameGraph self.now.graph other.now.graph }
    {
        self.graph.is_same(&other.graph)
    }

    /// Returns true if the sets have the same features, and their graphs count as one.
    fn is_equal(&self, other: &FeatureSet<'_>) -> bool
        ensures { IsTrue result ↔ AreEqualSets self.now other.now }
    {
        self.members == other.members && self.same_graph(other)
    }

    /// Returns the features that are in either set, over this set's graph; `Memory` is the only error.
    pub fn union(
        &self,
        alloc: Global,
        other: &FeatureSet<'_>,
    ) -> Result<FeatureSet<'g>, Error<'static>>
        requires { SameGraph self.now.graph other.now.graph }
        ensures combined { IfOk result (λ set. IsCombined ◌||◌ self.now other.now set) }
        ensures refused { IfErr result (λ e. e ≡ Error.Memory) }
    {
        let members = self.members.union(alloc, &other.members)?;
        Ok(FeatureSet::new(self.graph, members))
    }

    /// Returns the features that are in both sets, over this set's graph; `Memory` is the only error.
    pub fn intersection(
        &self,
        alloc: Global,
        other: &FeatureSet<'_>,
    ) -> Result<FeatureSet<'g>, Error<'static>>
        requires { SameGraph self.now.graph other.now.graph }
        ensures combined { IfOk result (λ set. IsCombined ◌&&◌ self.now other.now set) }
        ensures refused { IfErr result (λ e. e ≡ Error.Memory) }
    {
        let members = self.members.intersection(alloc, &other.members)?;
        Ok(FeatureSet::new(self.graph, members))
    }

    /// Returns the features of this set that are not in `other`, over this set's graph; `Memory` is the only error.
    pub fn difference(
        &self,
        alloc: Global,
        other: &FeatureSet<'_>,
    ) -> Result<FeatureSet<'g>, Error<'static>>
        requires { SameGraph self.now.graph other.now.graph }
        ensures combined { IfOk result (λ set. IsCombined first_alone self.now other.now set) }
        ensures refused { IfErr result (λ e. e ≡ Error.Memory) }
    {
        let members = self.members.difference(alloc, &other.members)?;
        Ok(FeatureSet::new(self.graph, members))
    }

    /// Returns the features that are in exactly one of the sets, over this set's graph; `Memory` is the only error.
    pub fn symmetric_difference(
        &self,
        alloc: Global,
        other: &FeatureSet<'_>,
    ) -> Result<FeatureSet<'g>, Error<'static>>
        requires { SameGraph self.now.graph other.now.graph }
        ensures combined { IfOk result (λ set. IsCombined one_alone self.now other.now set) }
        ensures refused { IfErr result (λ e. e ≡ Error.Memory) }
    {
        let members = self.members.symmetric_difference(alloc, &other.members)?;
        Ok(FeatureSet::new(self.graph, members))
    }

    /// Returns an equal set over the same graph; `Memory` is the only error.
    pub fn try_clone(&self, alloc: Global) -> Result<FeatureSet<'g>, Error<'static>>
        ensures same { IfOk result (λ set. set ≡ self.now) }
        ensures refused { IfErr result (λ e. e ≡ Error.Memory) }
    {
        let members = self.members.try_clone(alloc)?;
        Ok(FeatureSet::new(self.graph, members))
    }

    /// Returns the query from the set's features in `direction`; `Memory` is the only error.
    pub fn to_feature_query(
        &self,
        alloc: Global,
        direction: DependencyDirection,
    ) -> Result<FeatureQuery<'g>, Error<'static>>
        ensures same { IfOk result (λ query. query ≡ record { graph = self.now.graph; direction = direction; initials = self.now.members }) }
        ensures refused { IfErr result (λ e. e ≡ Error.Memory) }
    {
        let initials = self.try_clone(alloc)?;
        Ok(FeatureQuery::new(initials, direction))
    }
}

/// Two sets are equal if they have the same features and their graphs count as one.
impl PartialEq for FeatureSet<'_> {
    ghost eq = { set_eq };

    ghost laws = { partial_equiv_from_equiv set_eq_equiv };

    fn eq(&self, other: &Self) -> bool
        ensures value { result ≡ set_eq self.now other.now }
        ensures same { IsTrue result ↔ AreEqualSets self.now other.now }
    {
        self.is_equal(other)
    }
}

impl Eq for FeatureSet<'_> {
    ghost laws = { set_eq_equiv };
}
