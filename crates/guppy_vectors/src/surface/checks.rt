//! Checks of explanations, and the steps that explain one feature.
use crate::shared::{Failure, Out, Words, next_id};
use crate::surface::explanations::tell_steps;
use crate::surface::steps::{Link, Step, links_of, steps_of};
use crate::surface::told::{tell_answer, tell_error};
use guppy_features::{
    DependencyDirection, Error, Explained, FeatureGraph, FeatureId, FeatureQuery, FeatureSet,
};
use std::alloc::Global;

/// The arguments of a query: a graph, the direction in which its edges are followed, and the initial features.
#[derive(Clone, Copy)]
pub struct Start<'s, 'g> {
    pub alloc: Global,
    pub features: FeatureGraph<'g>,
    pub direction: DependencyDirection,
    pub initials: &'s [FeatureId<'s>],
}

impl<'s, 'g> Start<'s, 'g> {
    /// Returns the query from `initials` in `direction`, or its error.
    pub fn query(self) -> Result<FeatureQuery<'g>, Error<'s>> {
        self.features
            .query_directed(self.alloc, self.initials, self.direction)
    }

    /// Writes whether `steps` are an explanation, or the error of the check.
    fn tell_check(self, out: &Out, steps: &[Step<'_>]) {
        let answer = self
            .features
            .check_explanation(self.alloc, self.direction, self.initials, steps);
        tell_answer(out, "explained ", answer);
    }

    /// Writes whether `steps` and `refused` are an exact explanation, or the error of the check.
    fn tell_exact(self, out: &Out, steps: &[Step<'_>], refused: &[Link<'_>]) {
        let answer = self
            .features
            .check_exact(self.alloc, self.direction, self.initials, steps, refused);
        tell_answer(out, "exact ", answer);
    }

    /// Writes the results of both checks of `explained`.
    pub fn tell_checks(self, out: &Out, explained: &Explained<'_>) {
        self.tell_check(out, explained.steps());
        self.tell_exact(out, explained.steps(), explained.refused());
    }

    /// Writes the steps of `explained` that explain `id`, and whether they are an explanation themselves. Writes `none` if the
    /// set lacks `id`, or the error.
    fn tell_why(self, out: &Out, explained: &Explained<'_>, id: FeatureId<'_>) {
        match explained.why(self.alloc, id) {
            Ok(Some(steps)) => {
                out.part("why");
                out.id(id);
                out.line("");
                tell_steps(out, &steps);
                self.tell_check(out, &steps);
            }
            Ok(None) => {
                out.part("why");
                out.id(id);
                out.line(" none");
            }
            Err(error) => tell_error(out, error),
        }
    }

    /// Calls `tell_why` for each feature of `set`, or writes the error.
    fn tell_each(
        self,
        out: &Out,
        explained: &Explained<'_>,
        set: Result<FeatureSet<'_>, Error<'_>>,
    ) {
        match set {
            Ok(set) => {
                for id in set.ids_by_node() {
                    self.tell_why(out, explained, id);
                }
                drop(set);
            }
            Err(error) => tell_error(out, error),
        }
    }

    /// Calls `tell_why` for each feature of the graph, then for the ids of `others` up to a `;`.
    pub fn tell_whys(self, out: &Out, explained: &Explained<'_>, others: &mut Words<'_>) {
        self.tell_each(out, explained, self.features.resolve_all(self.alloc));
        for _ in 0..others.len() {
            let Some(id) = next_id(others) else { break };
            self.tell_why(out, explained, id);
        }
    }
}

/// Reads steps from `words` and checks them; `Memory` is the only error.
pub fn check(out: &Out, start: Start<'_, '_>, words: &mut Words<'_>) -> Result<(), Failure> {
    let steps = steps_of(start.alloc, words)?;
    start.tell_check(out, &steps);
    Ok(())
}

/// Reads steps and, after a `;`, refused links from `words`, and checks them for exactness; `Memory` is the only error.
pub fn check_exact(out: &Out, start: Start<'_, '_>, words: &mut Words<'_>) -> Result<(), Failure> {
    let steps = steps_of(start.alloc, words)?;
    let refused = links_of(start.alloc, words)?;
    start.tell_exact(out, &steps, &refused);
    Ok(())
}
