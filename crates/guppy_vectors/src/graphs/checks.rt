//! Calls that check explanations.
ghost use Rattle.std.specs.Prelude.{◌≡◌, length};

use crate::graphs::rules::{Asked, Rule};
use crate::graphs::steps::{offers_of, steps_of, tell_script};
use crate::graphs::walks::initials_of;
use crate::shared::{Failure, Out, cut, direction_of, halves, number};
use feature_core::engine::{Half, Step, walk_explained};
use feature_core::{FeatureGraphData, Packed, check_exact_steps, check_steps, why};
use guppy_packages::DependencyDirection;
use guppy_support::IxBitSet;
use std::alloc::Global;

/// The arguments of a walk: a graph, the direction in which its edges are followed, and the initial nodes.
#[derive(Clone, Copy)]
pub struct Start<'s> {
    pub alloc: Global,
    pub built: &'s FeatureGraphData,
    pub direction: DependencyDirection,
    pub initials: &'s IxBitSet,
}

/// Writes whether `steps` are an explanation; `Memory` is the only error.
fn tell_check(out: &Out, start: Start<'_>, steps: &[Step]) -> Result<(), Failure>
    requires { length start.initials.now ≡ length start.built.now.packages }
{
    match check_steps(
        start.alloc,
        start.built,
        start.direction,
        start.initials,
        steps,
    ) {
        Ok(explained) => out.answer("", explained),
        Err(_) => return Err(Failure::Memory),
    }
    out.line("");
    Ok(())
}

/// Writes whether `steps` and `refused` are an exact explanation; `Memory` is the only error.
fn tell_exact(
    out: &Out,
    start: Start<'_>,
    steps: &[Step],
    refused: &[(usize, Half)],
) -> Result<(), Failure>
    requires { length start.initials.now ≡ length start.built.now.packages }
{
    match check_exact_steps(
        start.alloc,
        start.built,
        start.direction,
        start.initials,
        steps,
        refused,
    ) {
        Ok(exact) => out.answer("", exact),
        Err(_) => return Err(Failure::Memory),
    }
    out.line("");
    Ok(())
}

/// Reads steps from `words` and checks them. `Words` if a word is no step, or `Memory`.
fn check_from(out: &Out, start: Start<'_>, words: &str) -> Result<(), Failure>
    requires { length start.initials.now ≡ length start.built.now.packages }
{
    let steps = steps_of(start.alloc, words)?;
    tell_check(out, start, &steps)
}

/// Reads steps and, after a `;`, refused offers from `words`, and checks them for exactness. `Words` if these can't be read,
/// or `Memory`.
fn check_exact_from(out: &Out, start: Start<'_>, words: &str) -> Result<(), Failure>
    requires { length start.initials.now ≡ length start.built.now.packages }
{
    let (steps, refused) = halves(words, ";")?;
    let steps = steps_of(start.alloc, steps)?;
    let refused = offers_of(start.alloc, refused)?;
    tell_exact(out, start, &steps, &refused)
}

/// Writes the steps that support a node, or `none` if it isn't listed. `words` are the direction and the node, then the steps
/// after a `;`. `Words` if these can't be read, or `Memory`.
pub fn tell_why(
    out: &Out,
    alloc: Global,
    built: &FeatureGraphData,
    words: &str,
) -> Result<(), Failure> {
    let (options, steps) = halves(words, ";")?;
    let (direction, node) = cut(options);
    let steps = steps_of(alloc, steps)?;
    match why(alloc, built, direction_of(direction), &steps, number(node)?) {
        Ok(Some(kept)) => tell_script(out, &kept),
        Ok(None) => out.line("none"),
        Err(_) => return Err(Failure::Memory),
    }
    Ok(())
}

/// Returns whether the steps that support `node` are an explanation and end with its own step; `Memory` is the only error.
fn is_why(start: Start<'_>, steps: &[Step], node: usize) -> Result<bool, Failure>
    requires { length start.initials.now ≡ length start.built.now.packages }
{
    let kept = match why(start.alloc, start.built, start.direction, steps, node) {
        Ok(Some(kept)) => kept,
        Ok(None) => return Ok(false),
        Err(_) => return Err(Failure::Memory),
    };
    let ends = match kept.last() {
        Some(step) => step.node == node,
        None => false,
    };
    match check_steps(
        start.alloc,
        start.built,
        start.direction,
        start.initials,
        &kept,
    ) {
        Ok(explained) => Ok(explained && ends),
        Err(_) => Err(Failure::Memory),
    }
}

/// Writes whether the steps that support `node` explain it; `Memory` is the only error.
fn tell_is_why(out: &Out, start: Start<'_>, steps: &[Step], node: usize) -> Result<(), Failure>
    requires { length start.initials.now ≡ length start.built.now.packages }
{
    let explained = is_why(start, steps, node)?;
    out.number("- why ", node);
    out.answer_line(" ", explained);
    Ok(())
}

/// Checks the explanation of a walk by both checks, and then the steps that support each node in it. `Memory` is the only
/// error.
fn tell_walked(
    out: &Out,
    start: Start<'_>,
    steps: &[Step],
    refused: &[(usize, Half)],
) -> Result<(), Failure>
    requires { length start.initials.now ≡ length start.built.now.packages }
{
    tell_check(out, start, steps)?;
    tell_exact(out, start, steps, refused)?;
    for step in steps {
        tell_is_why(out, start, steps, step.node)?;
    }
    Ok(())
}

/// Walks by `rule`, and checks the explanation of the walk; `Memory` is the only error.
fn check_walk_from(out: &Out, start: Start<'_>, rule: &str) -> Result<(), Failure>
    requires { length start.initials.now ≡ length start.built.now.packages }
{
    let mut offerer = Asked {
        rule: Rule::of(rule),
        count: 0,
        out,
    };
    let mut source = Packed::new(start.built, start.direction);
    match walk_explained(start.alloc, &mut source, start.initials, &mut offerer) {
        Ok((_, steps, refused)) => tell_walked(out, start, &steps, &refused),
        Err(_) => Err(Failure::Memory),
    }
}

/// Makes the call `name`: checks steps (`check`, `check-exact`), or the explanation of a walk (`check-walk`). `Words` if
/// `words` can't be read, or `Memory`.
///
/// For steps, `words` are the direction and initial nodes, then the steps after a `;`, and the refused offers after another.
/// For a walk, they are the direction and rule, then the initial nodes after a `;`.
pub fn check(
    out: &Out,
    alloc: Global,
    built: &FeatureGraphData,
    name: &str,
    words: &str,
) -> Result<(), Failure> {
    let (options, rest) = halves(words, ";")?;
    let (direction, others) = cut(options);
    let is_walk = name == "check-walk";
    let (nodes, words) = if is_walk {
        (rest, others)
    } else {
        (others, rest)
    };
    let initials = initials_of(alloc, built, nodes)?;
    let start = Start {
        alloc,
        built,
        direction: direction_of(direction),
        initials: &initials,
    };
    match name {
        "check" => check_from(out, start, words),
        "check-exact" => check_exact_from(out, start, words),
        _ => check_walk_from(out, start, words),
    }
}
