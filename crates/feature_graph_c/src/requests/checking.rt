//! Checks of explanations.
ghost use Rattle.std.specs.Prelude.{◌≡◌, IfOk, IfSome, IsTrue, length};
ghost use Rattle.std.specs.Option.{option_map};
ghost use Rattle.feature_graph_c.specs.binary.Records.{flag};
ghost use Rattle.feature_graph_c.specs.requests.Answers.{Answers, Has, answer_with};
ghost use Rattle.feature_graph_c.specs.requests.Contents.{Checked};
ghost use Rattle.feature_graph_c.specs.requests.Requests as spec;

use crate::binary::push_flag;
use crate::requests::answers::{broken, status};
use crate::requests::requests::start_in;
use crate::requests::sets::set_of;
use crate::requests::steps::{offers_in, steps_in};
use feature_core::{FeatureGraphData, check_exact_steps};
use guppy_packages::DependencyDirection;
use std::alloc::{AllocError, Global};
use walk_engine::{Half, Step};

/// Returns the list of steps and the list of offers that `words` are, or `None`.
fn lists_in(
    alloc: Global,
    words: &[usize],
) -> Result<Option<(Vec<Step>, Vec<(usize, Half)>)>, AllocError>
    ensures { IfOk result (λ found. option_map (λ p. (p.0.items, p.1.items)) found ≡ spec.lists_in words.now) }
{
    let Some((steps, rest)) = steps_in(alloc, words)? else {
        return Ok(None);
    };
    match offers_in(alloc, rest)? {
        Some((refused, [])) => Ok(Some((steps, refused))),
        _ => Ok(None),
    }
}

/// Returns the answer with this flag.
fn with_flag(alloc: Global, value: bool) -> Result<Vec<u8>, AllocError>
    ensures { IfOk result (λ answer. answer.items ≡ answer_with (flag value)) }
{
    let mut answer = status(alloc)?;
    push_flag(&mut answer, value)?;
    Ok(answer)
}

/// Returns the answer with the check of an explanation.
fn checked(
    alloc: Global,
    built: &FeatureGraphData,
    direction: DependencyDirection,
    initials: &[usize],
    lists: &(Vec<Step>, Vec<(usize, Half)>),
) -> Result<Vec<u8>, AllocError>
    requires { IsTrue (spec.are_below (length built.now.packages) initials.now) }
    ensures { IfOk result (λ answer. Has (Checked built.now (spec.check_request direction initials.now (lists.now.0.items, lists.now.1.items))) answer.items) }
{
    let set = set_of(alloc, built.node_count(), initials)?;
    match check_exact_steps(alloc, built, direction, &set, &lists.0, &lists.1) {
        Ok(value) => with_flag(alloc, value),
        Err(_) => Err(AllocError),
    }
}

/// Returns the answer to a request for a check. `AllocError` is the only error.
pub fn check(
    alloc: Global,
    built: &FeatureGraphData,
    words: &[usize],
) -> Result<Vec<u8>, AllocError>
    ensures { IfOk result (λ answer. Answers (Checked built.now) (spec.check_in (length built.now.packages) words.now) answer.items) }
{
    let Some((direction, initials, rest)) = start_in(words, built.node_count()) else {
        return broken(alloc);
    };
    match lists_in(alloc, rest)? {
        Some(lists) => checked(alloc, built, direction, initials, &lists),
        None => broken(alloc),
    }
}
