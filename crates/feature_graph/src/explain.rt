//! Explained sets: a resolved set with the reason for each of its features.
ghost use Rattle.std.specs.Prelude.{◌≡◌, ℕ, IsFalse, IfOk, IfErr, MatchOption, ◌∷◌, [], map};
ghost use Rattle.digraphs.specs.Bits.{has};
ghost use Rattle.feature_labels.specs.Names.{id_of};
ghost use Rattle.feature_core.specs.Built.{NodeNamed};
ghost use Rattle.feature_core.specs.Errors.{refusal_of};
ghost use Rattle.feature_graph.specs.Explained.{AreTold, ExplainsMember, IsBacked, ListMembers, OffersAreTold};
ghost use Rattle.feature_graph.specs.Names.{HasFeature, RefusesNames};
ghost use Rattle.feature_graph.specs.Told.{offer_name, step_name};
ghost use Rattle.feature_graph.specs.inner.Listings.{AreOffered};

mod check;
mod from_ids;
pub(crate) mod reason;
mod to_ids;

use crate::explain::reason::Reason;
use crate::explain::to_ids::{told_offers, told_steps};
use crate::set::FeatureSet;
use feature_core::graph_laws::{content_of_graph, offers_are_links};
use feature_core::{Error, why};
use feature_labels::{FeatureId, LinkDeclarations};
use guppy_packages::DependencyDirection;
use std::alloc::{AllocError, Global};
use std::fmt;
use std::marker::Model;
use walk_engine::{Half, Step};

/// A resolved set with the reason for each of its features, and the refused links.
pub struct Explained<'g> {
    set: FeatureSet<'g>,
    direction: DependencyDirection,
    numbers: Vec<Step>,
    steps: Vec<(FeatureId<'g>, Reason<'g>)>,
    refused_numbers: Vec<(usize, Half)>,
    refused: Vec<(FeatureId<'g>, FeatureId<'g>, LinkDeclarations)>,
}

impl Drop for Explained<'_> {
    // Written out, so that a crate above calls it. A derived drop is proved in each crate that drops a value, with those of all fields.
    fn drop(self) {
        let Explained {
            set: _set,
            direction: _direction,
            numbers: _numbers,
            steps: _steps,
            refused_numbers: _refused_numbers,
            refused: _refused,
        } = self;
    }
}

impl<'g> Model for Explained<'g> {
    ghost use Rattle.std.specs.Prelude.{map};
    ghost use Rattle.feature_graph.specs.Told.{Explanation, offer_name, step_name};
    ghost use Rattle.feature_graph.specs.Explained.{AreTold, IsBacked, ListMembers, OffersAreTold};

    ghost Value = { Explanation };

    ghost view = { λ x. record { graph = x.set.graph; direction = x.direction; members = x.set.members; steps = x.numbers.items; refused = x.refused_numbers.items } };

    ghost invariant = { λ x.
        AreTold x.set.graph x.numbers.items (map step_name x.steps.items)
        × OffersAreTold x.set.graph x.refused_numbers.items (map offer_name x.refused.items)
        × IsBacked x.set.graph x.direction x.numbers.items
        × ListMembers x.set.members x.numbers.items };
}

impl<'g> Explained<'g> {
    /// Builds the explanation of `set` from `numbers` and `refused_numbers`, with ids in place of numbers.
    pub(crate) fn new(
        alloc: Global,
        set: FeatureSet<'g>,
        direction: DependencyDirection,
        numbers: Vec<Step>,
        refused_numbers: Vec<(usize, Half)>,
    ) -> Result<Explained<'g>, AllocError>
        requires backed { IsBacked set.graph direction numbers.items }
        requires listed { ListMembers set.members numbers.items }
        requires offers { AreOffered set.graph refused_numbers.items }
        ensures { IfOk result (λ x. x ≡ record { graph = set.entry.graph; direction = direction; members = set.entry.members; steps = numbers.items; refused = refused_numbers.items }) }
    {
        let graph = *set.graph();
        content_of_graph(graph.graph);
        offers_are_links(graph.graph);
        let steps = told_steps(alloc, graph, &numbers)?;
        let refused = told_offers(alloc, graph, &refused_numbers)?;
        Ok(Explained {
            set,
            direction,
            numbers,
            steps,
            refused_numbers,
            refused,
        })
    }

    /// Returns the set that was resolved.
    pub fn set(&self) -> &FeatureSet<'g>
        ensures { result.now ≡ record { graph = self.now.graph; members = self.now.members } }
    {
        &self.set
    }

    /// Returns each feature of the set once, with its reason, in the order in which the walk reached them. A reason
    /// uses only earlier features. The steps are an explanation, from some initial features and by some links.
    pub fn steps(&self) -> &[(FeatureId<'g>, Reason<'g>)]
        ensures told { AreTold self.now.graph self.now.steps (map step_name result.now) }
        ensures listed { ListMembers self.now.members self.now.steps }
        ensures backed { IsBacked self.now.graph self.now.direction self.now.steps }
    {
        self.steps.as_slice()
    }

    /// Returns the links that the visitor refused, in the order of the run. Each is named by its two features and by
    /// the declarations that it covers.
    pub fn refused(&self) -> &[(FeatureId<'g>, FeatureId<'g>, LinkDeclarations)]
        ensures { OffersAreTold self.now.graph self.now.refused (map offer_name result.now) }
    {
        self.refused.as_slice()
    }

    /// Returns the resolved set without the reasons.
    pub fn into_set(self) -> FeatureSet<'g>
        ensures { result ≡ record { graph = self.entry.graph; members = self.entry.members } }
    {
        let Explained {
            set,
            direction: _,
            numbers: _numbers,
            steps: _steps,
            refused_numbers: _refused_numbers,
            refused: _refused,
        } = self;
        set
    }

    /// Returns the reason chain of a feature: the steps that its own step rests on, gates included, in order and each
    /// once, with its own step last. They are an explanation for the same graph, initial features and direction.
    ///
    /// Returns `None` if the set lacks the feature. The error is `UnknownFeatureId` if the graph lacks it, or `Memory`.
    pub fn why<'a>(
        &self,
        alloc: Global,
        feature_id: FeatureId<'a>,
    ) -> Result<Option<Vec<(FeatureId<'g>, Reason<'g>)>>, Error<'a>>
        ensures known { IfOk result (λ _. HasFeature self.now.graph.tables (id_of feature_id.entry)) }
        ensures told { IfOk result (λ found. (n : ℕ) → NodeNamed self.now.graph.tables n (id_of feature_id.entry)
            → MatchOption found (IsFalse (has self.now.members n)) (λ why. ExplainsMember self.now n (map step_name why.items))) }
        ensures refused { IfErr result (λ e. RefusesNames self.now.graph.tables (id_of feature_id.entry ∷ []) (refusal_of e)) }
    {
        let graph = *self.set.graph();
        content_of_graph(graph.graph);
        offers_are_links(graph.graph);
        let Some(node) = graph.node(feature_id) else {
            return Err(Error::UnknownFeatureId(feature_id));
        };
        let Some(kept) = why(alloc, graph.built, self.direction, &self.numbers, node)? else {
            return Ok(None);
        };
        match told_steps(alloc, graph, &kept) {
            Ok(told) => Ok(Some(told)),
            Err(_) => Err(Error::Memory),
        }
    }
}

impl fmt::Debug for Explained<'_> {
    fn fmt<W: fmt::Write>(&self, f: &mut fmt::Formatter<W>) -> fmt::Result {
        f.debug_struct("Explained")
            .field("steps", &self.steps)
            .field("refused", &self.refused)
            .finish()
    }
}
