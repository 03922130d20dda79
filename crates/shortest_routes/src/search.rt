//! The search: from the targets backwards, one level of nodes after the other.
ghost use Rattle.std.specs.Prelude.{◌≡◌, ◌<◌, ◌+◌, [], ℕ, List, None, Contains, IfOk, OnOk, length, replicate};
ghost use Rattle.shortest_routes.specs.inner.Links.{AreBefore, nodes_before};
ghost use Rattle.shortest_routes.specs.inner.Searches.{Grows, HasStep, IsFrom, IsReached};
ghost use Rattle.shortest_routes.specs.inner.Steps.{AreSteps, IsSearched, step_at};

use crate::links::{before, lists_before};
use crate::numbers::node_count;
use crate::step::{Step, step_at};
use std::alloc::{AllocError, Global};

/// Returns a table of `count` nodes without a step.
fn blank(alloc: Global, count: usize) -> Result<Vec<Option<Step>>, AllocError>
    ensures { IfOk result (λ steps. steps.items ≡ replicate count None) }
{
    let mut steps = Vec::with_capacity(alloc, count)?;
    for _node in 0..count {
        steps.push(None)?;
    }
    Ok(steps)
}

/// Sets the step of `node`, and appends `node` to `found`, unless it has a step.
fn reach(
    steps: &mut Vec<Option<Step>>,
    found: &mut Vec<usize>,
    node: usize,
    step: Step,
) -> Result<(), AllocError>
    requires { node < length steps.old.items }
    ensures grows { OnOk result (Grows (λ n s. (n ≡ node) × (s ≡ step)) steps.old.items steps.new.items found.old.items found.new.items) }
    ensures has_step { OnOk result (HasStep steps.new.items node) }
{
    match step_at(steps, node) {
        None => {
            steps[node] = Some(step);
            found.push(node)?;
            Ok(())
        }
        Some(_step) => Ok(()),
    }
}

/// Does the same for each of `nodes`.
fn reach_all(
    steps: &mut Vec<Option<Step>>,
    found: &mut Vec<usize>,
    nodes: &[usize],
    step: Step,
) -> Result<(), AllocError>
    requires { (n : ℕ) → Contains nodes.now n → n < length steps.old.items }
    ensures grows { OnOk result (Grows (IsReached nodes.now step) steps.old.items steps.new.items found.old.items found.new.items) }
    ensures all { OnOk result ((n : ℕ) → Contains nodes.now n → HasStep steps.new.items n) }
{
    for node in nodes {
        reach(steps, found, *node, step)?;
    }
    Ok(())
}

/// Sets the steps of the nodes before those of `level`, which are at one distance, and returns those that had none. `distance` is theirs.
fn next_level(
    alloc: Global,
    lists: &[Vec<usize>],
    level: &[usize],
    distance: usize,
    steps: &mut Vec<Option<Step>>,
) -> Result<Vec<usize>, AllocError>
    requires { (n node : ℕ) → Contains (nodes_before lists.now node) n → n < length steps.old.items }
    ensures grows { IfOk result (λ next. Grows (IsFrom (nodes_before lists.now) level.now distance) steps.old.items steps.new.items [] next.items) }
    ensures all { OnOk result ((n node : ℕ) → Contains level.now node → Contains (nodes_before lists.now node) n → HasStep steps.new.items n) }
{
    let mut next = Vec::new(alloc);
    for node in level {
        reach_all(
            steps,
            &mut next,
            before(lists, *node),
            Step {
                distance,
                next: Some(*node),
            },
        )?;
    }
    Ok(next)
}

/// Sets the steps of the targets, and returns the targets, each once.
fn first_level(
    alloc: Global,
    targets: &[usize],
    steps: &mut Vec<Option<Step>>,
) -> Result<Vec<usize>, AllocError>
    requires within { (n : ℕ) → Contains targets.now n → n < length steps.old.items }
    requires blank { (n : ℕ) → step_at steps.old.items n ≡ None }
    ensures size { OnOk result (length steps.new.items ≡ length steps.old.items) }
    ensures searched { (links : List (ℕ × ℕ)) → IfOk result (λ level. IsSearched links targets.now 0 level.items steps.new.items) }
{
    let mut level = Vec::new(alloc);
    let step = Step {
        distance: 0,
        next: None,
    };
    reach_all(steps, &mut level, targets, step)?;
    Ok(level)
}

/// Returns the distance after `distance`.
fn next_distance(distance: usize) -> Result<usize, AllocError>
    ensures { IfOk result (λ next. next ≡ distance + 1) }
{
    match distance.checked_add(1) {
        Some(next) => Ok(next),
        None => Err(AllocError),
    }
}

/// Sets the steps of all other nodes from which routes lead, from `level` on, whose nodes are at distance 0. `lists` are the nodes before each.
fn search(
    alloc: Global,
    lists: &[Vec<usize>],
    level: Vec<usize>,
    steps: &mut Vec<Option<Step>>,
) -> Result<(), AllocError>
    requires { (n node : ℕ) → Contains (nodes_before lists.now node) n → n < length steps.old.items }
    ensures { (links : List (ℕ × ℕ)) (targets : List ℕ) → AreBefore links lists.now → IsSearched links targets 0 level.items steps.old.items → OnOk result (AreSteps links targets steps.new.items) }
{
    let mut level = level;
    let mut distance = 0;
    while !level.is_empty() {
        distance = next_distance(distance)?;
        level = next_level(alloc, lists, &level, distance, steps)?;
    }
    Ok(())
}

/// Returns the step of each node, `None` for a node from which no route leads to `targets`. An allocation's failure is the only error.
pub(crate) fn steps_to(
    alloc: Global,
    links: &[(usize, usize)],
    targets: &[usize],
) -> Result<Vec<Option<Step>>, AllocError>
    ensures { IfOk result (λ steps. AreSteps links.now targets.now steps.items) }
{
    let count = node_count(links, targets)?;
    let lists = lists_before(alloc, count, links)?;
    let mut steps = blank(alloc, count)?;
    let level = first_level(alloc, targets, &mut steps)?;
    search(alloc, &lists, level, &mut steps)?;
    Ok(steps)
}
