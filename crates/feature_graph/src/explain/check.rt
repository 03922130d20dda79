//! Checks of explanations whose features are ids.
ghost use Rattle.std.specs.Prelude.{◌≡◌, ◌↔◌, IsTrue, IfOk, IfErr, map};
ghost use Rattle.feature_labels.specs.Names.{id_of};
ghost use Rattle.feature_core.specs.Errors.{refusal_of};
ghost use Rattle.feature_graph.specs.Explained.{Explains, ExplainsAll};
ghost use Rattle.feature_graph.specs.Names.{AreKnown, RefusesNames};
ghost use Rattle.feature_graph.specs.Told.{offer_name, step_name};

use crate::explain::from_ids::{numbered_offers, numbered_steps};
use crate::explain::reason::Reason;
use crate::graph::FeatureGraph;
use feature_core::{Error, check_exact_steps, check_steps};
use feature_labels::{FeatureId, LinkDeclarations};
use guppy_packages::DependencyDirection;
use std::alloc::Global;

impl<'g> FeatureGraph<'g> {
    ghost use Rattle.feature_graph.specs.Views.{graph_of, tables_of_graph};

    /// Checks whether `steps` is an explanation from `initials` in `direction`: each feature is listed once, with a
    /// reason that holds by the steps before it.
    ///
    /// Returns false if a step names an id that the graph lacks, or a link that it doesn't offer; so `steps` may come
    /// from anyone. The error is `UnknownFeatureId` with the first unknown id of `initials`, found before any
    /// allocation, or `Memory`. Linear in `steps` and in the features of the graph.
    pub fn check_explanation<'a>(
        &self,
        alloc: Global,
        direction: DependencyDirection,
        initials: &[FeatureId<'a>],
        steps: &[(FeatureId<'_>, Reason<'_>)],
    ) -> Result<bool, Error<'a>>
        ensures known { IfOk result (λ _. AreKnown (tables_of_graph self.now) (map id_of initials.now)) }
        ensures told { IfOk result (λ answer. IsTrue answer ↔ Explains (graph_of self.now) direction (map id_of initials.now) (map step_name steps.now)) }
        ensures refused { IfErr result (λ e. RefusesNames (tables_of_graph self.now) (map id_of initials.now) (refusal_of e)) }
    {
        let set = self.resolve_ids(alloc, initials)?;
        let Ok(found) = numbered_steps(alloc, *self, steps) else {
            return Err(Error::Memory);
        };
        match found {
            None => Ok(false),
            Some(numbers) => check_steps(alloc, self.built, direction, set.members(), &numbers),
        }
    }

    /// Checks whether `steps` is a complete explanation: no reason is a link in `refused`, and the listed features
    /// contain `initials` and are closed under the edges and the other links.
    ///
    /// An entry of `refused` that is no link of the graph is ignored. Otherwise as `check_explanation`, and linear also
    /// in `refused` and in the edges of the listed features.
    pub fn check_exact<'a>(
        &self,
        alloc: Global,
        direction: DependencyDirection,
        initials: &[FeatureId<'a>],
        steps: &[(FeatureId<'_>, Reason<'_>)],
        refused: &[(FeatureId<'_>, FeatureId<'_>, LinkDeclarations)],
    ) -> Result<bool, Error<'a>>
        ensures known { IfOk result (λ _. AreKnown (tables_of_graph self.now) (map id_of initials.now)) }
        ensures told { IfOk result (λ answer. IsTrue answer ↔ ExplainsAll (graph_of self.now) direction (map id_of initials.now) (map step_name steps.now) (map offer_name refused.now)) }
        ensures refused { IfErr result (λ e. RefusesNames (tables_of_graph self.now) (map id_of initials.now) (refusal_of e)) }
    {
        let set = self.resolve_ids(alloc, initials)?;
        let Ok(found) = numbered_steps(alloc, *self, steps) else {
            return Err(Error::Memory);
        };
        let Some(numbers) = found else {
            return Ok(false);
        };
        let Ok(offers) = numbered_offers(alloc, *self, refused) else {
            return Err(Error::Memory);
        };
        check_exact_steps(
            alloc,
            self.built,
            direction,
            set.members(),
            &numbers,
            &offers,
        )
    }
}
