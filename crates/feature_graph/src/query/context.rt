//! The context of a visitor: the query that is being resolved.
ghost use Rattle.std.specs.Prelude.{◌≡◌, ◌↔◌, IfOk, IfErr, IsTrue};
ghost use Rattle.feature_graph.specs.Visits.{StartsFromInitial};

use crate::link::ConditionalLink;
use crate::query::FeatureQuery;
use feature_core::Error;
use guppy_packages::DependencyDirection;
use std::alloc::Global;
use std::fmt;
use std::marker::Model;

/// The context in which a visitor sees a link: the query that is being resolved. A contract sees it as the query.
#[derive(Drop)]
pub struct FeatureLinkContext<'g> {
    query: FeatureQuery<'g>,
}

impl<'g> Model for FeatureLinkContext<'g> {
    ghost use Rattle.feature_graph.specs.Values.{Query};

    ghost Value = { Query };

    ghost view = { λ cx. cx.query };
}

impl<'g> FeatureLinkContext<'g> {
    ghost use Rattle.feature_graph.specs.LinkViews.{link_of};

    /// Returns the context of `query`.
    pub(crate) fn new(query: FeatureQuery<'g>) -> Self
        ensures { result ≡ query.entry }
    {
        FeatureLinkContext { query }
    }

    /// Returns the query that is being resolved.
    pub fn query(&self) -> &FeatureQuery<'g>
        ensures { result.now ≡ self.now }
    {
        &self.query
    }

    /// Returns the direction of the query.
    pub fn direction(&self) -> DependencyDirection
        ensures { result ≡ self.now.direction }
    {
        self.query.direction()
    }

    /// Returns true if the query starts from the feature at which `link` starts, in the query's direction. Features are
    /// compared by their ids, so `link` may belong to another graph.
    pub fn starts_from_initial(&self, link: &ConditionalLink<'_>) -> bool
        ensures { IsTrue result ↔ StartsFromInitial self.now (link_of link.now) }
    {
        let start = match self.direction() {
            DependencyDirection::Forward => link.from(),
            DependencyDirection::Reverse => link.to(),
        };
        match self.query.initials().contains(start.feature_id()) {
            Ok(answer) => answer,
            Err(_) => false,
        }
    }

    /// Returns an equal context; `Memory` is the only error.
    pub fn try_clone(&self, alloc: Global) -> Result<FeatureLinkContext<'g>, Error<'static>>
        ensures same { IfOk result (λ cx. cx ≡ self.now) }
        ensures refused { IfErr result (λ e. e ≡ Error.Memory) }
    {
        let query = self.query.try_clone(alloc)?;
        Ok(FeatureLinkContext { query })
    }
}

impl fmt::Debug for FeatureLinkContext<'_> {
    fn fmt<W: fmt::Write>(&self, f: &mut fmt::Formatter<W>) -> fmt::Result {
        f.debug_struct("FeatureLinkContext")
            .field("query", &self.query)
            .finish()
    }
}
