//! Walks over a feature graph.
ghost use Rattle.std.specs.Prelude.{◌≡◌, ◌↔◌, ◌++◌, ℕ, Bool, List, IfOk, IfSome, IsTrue, length};
ghost use Rattle.std.specs.Option.{option_map};
ghost use Rattle.feature_graph_c.specs.binary.Records.{list};
ghost use Rattle.digraphs.specs.Bits.{has, members};
ghost use Rattle.walk_engine.specs.Explanations.{IsExplainedWalk};
ghost use Rattle.feature_core.specs.Built.{IsBuilt};
ghost use Rattle.feature_core.specs.Offers.{content_of};
ghost use Rattle.feature_core.specs.Pairs.{Reach};
ghost use Rattle.guppy_packages.specs.Tables.{Tables};
ghost use Rattle.feature_graph_c.specs.requests.Answers.{Answers, Has, answer_with};
ghost use Rattle.feature_graph_c.specs.requests.Choices.{choice_of};
ghost use Rattle.feature_graph_c.specs.requests.Contents.{Reached, Walked, offer_record, step_record};
ghost use Rattle.feature_graph_c.specs.requests.Requests as spec;

use crate::binary::push_list;
use crate::requests::answers::{broken, status, with_numbers};
use crate::requests::choice::{Choice, choice_in};
use crate::requests::requests::{start_in, view_in};
use crate::requests::sets::set_of;
use crate::requests::steps::{Offers, Steps};
use digraphs::IxBitSet;
use feature_core::{EdgeChoice, FeatureGraphData, Packed, walk_all};
use guppy_packages::{DependencyDirection, PackageGraph};
use std::alloc::{AllocError, Global};
use walk_engine::{Half, Step, walk_explained};

/// Returns the direction, the initial nodes and the answers of a request for a walk, or `None`.
fn walk_in<'a>(
    words: &'a [usize],
    nodes: usize,
    edges: usize,
) -> Option<(DependencyDirection, &'a [usize], Choice<'a>)>
    ensures request { option_map (λ q. spec.walk_request q.0 q.1.now (choice_of q.2)) result ≡ spec.walk_in nodes edges words.now }
    ensures nodes { IfSome result (λ q. IsTrue (spec.are_below nodes q.1.now)) }
{
    let (direction, initials, rest) = start_in(words, nodes)?;
    let choice = choice_in(rest, edges)?;
    Some((direction, initials, choice))
}

/// Walks from `initials`, and answers each offer by `choice`. Returns the steps and the refused offers.
fn explained(
    alloc: Global,
    built: &FeatureGraphData,
    direction: DependencyDirection,
    initials: &IxBitSet,
    choice: Choice<'_>,
) -> Result<(Vec<Step>, Vec<(usize, Half)>), AllocError>
    requires { length initials.now ≡ length built.now.packages }
    ensures { IfOk result (λ found. (set : List Bool) × IsExplainedWalk {O = Unit {0}} (content_of direction built.now) (has initials.now)
        (λ s e h answer t. answer ≡ spec.accepts (choice_of choice.entry) e h) tt tt (has set) found.0.items found.1.items) }
{
    let mut source = Packed::new(built, direction);
    let mut offerer = choice;
    let (walk, steps, refused) = walk_explained(alloc, &mut source, initials, &mut offerer)?;
    drop(walk);
    Ok((steps, refused))
}

/// Returns the answer whose content is `steps` and `refused`.
fn with_steps(
    alloc: Global,
    steps: &[Step],
    refused: &[(usize, Half)],
) -> Result<Vec<u8>, AllocError>
    ensures { IfOk result (λ answer. answer.items ≡ answer_with (list step_record steps.now ++ list offer_record refused.now)) }
{
    let mut answer = status(alloc)?;
    push_list(&mut answer, &Steps(steps))?;
    push_list(&mut answer, &Offers(refused))?;
    Ok(answer)
}

/// Returns the answer with the walk from `initials` in `direction` that answers each offer by `choice`.
fn walked(
    alloc: Global,
    built: &FeatureGraphData,
    direction: DependencyDirection,
    initials: &[usize],
    choice: Choice<'_>,
) -> Result<Vec<u8>, AllocError>
    requires { IsTrue (spec.are_below (length built.now.packages) initials.now) }
    ensures { IfOk result (λ answer. Has (Walked built.now (spec.walk_request direction initials.now (choice_of choice.entry))) answer.items) }
{
    let set = set_of(alloc, built.node_count(), initials)?;
    let (steps, refused) = explained(alloc, built, direction, &set, choice)?;
    with_steps(alloc, &steps, &refused)
}

/// Returns the answer to a request for a walk: its steps and the refused offers. `AllocError` is the only error.
pub fn resolve(
    alloc: Global,
    built: &FeatureGraphData,
    words: &[usize],
) -> Result<Vec<u8>, AllocError>
    ensures { IfOk result (λ answer. Answers (Walked built.now) (spec.walk_in (length built.now.packages) (length built.now.edges) words.now) answer.items) }
{
    match walk_in(words, built.node_count(), built.edge_count()) {
        Some((direction, initials, choice)) => walked(alloc, built, direction, initials, choice),
        None => broken(alloc),
    }
}

/// Returns the members of `set`, ascending.
fn numbers_in(alloc: Global, set: &IxBitSet) -> Result<Vec<usize>, AllocError>
    ensures { IfOk result (λ numbers. numbers.items ≡ members set.now) }
{
    let mut numbers = Vec::new(alloc);
    for number in set.ones() {
        numbers.push(number)?;
    }
    Ok(numbers)
}

/// Returns the set of the nodes that `initials` reach in `direction` over all edges.
fn reach_of(
    alloc: Global,
    built: &FeatureGraphData,
    direction: DependencyDirection,
    initials: &IxBitSet,
) -> Result<IxBitSet, AllocError>
    requires { length initials.now ≡ length built.now.packages }
    ensures size { IfOk result (λ set. length set ≡ length built.now.packages) }
    ensures members { IfOk result (λ set. (t : Tables) → IsBuilt t built.now → (n : ℕ) → IsTrue (has set n) ↔ Reach t direction (has initials.now) n) }
{
    match walk_all(alloc, built, direction, initials, EdgeChoice::All) {
        Ok(set) => Ok(set),
        Err(_) => Err(AllocError),
    }
}

/// Returns the answer with the nodes that `initials` reach in `direction` over all edges.
fn reached(
    alloc: Global,
    graph: &PackageGraph,
    built: &FeatureGraphData,
    direction: DependencyDirection,
    initials: &[usize],
) -> Result<Vec<u8>, AllocError>
    requires built { IsBuilt graph.now built.now }
    requires nodes { IsTrue (spec.are_below (length built.now.packages) initials.now) }
    ensures { IfOk result (λ answer. Has (Reached graph.now built.now (direction, initials.now)) answer.items) }
{
    let set = set_of(alloc, built.node_count(), initials)?;
    let set = reach_of(alloc, built, direction, &set)?;
    let numbers = numbers_in(alloc, &set)?;
    with_numbers(alloc, &numbers)
}

/// Returns the answer to a request for the nodes that some nodes reach over all edges. `AllocError` is the only error.
pub fn reach(
    alloc: Global,
    graph: &PackageGraph,
    built: &FeatureGraphData,
    words: &[usize],
) -> Result<Vec<u8>, AllocError>
    requires { IsBuilt graph.now built.now }
    ensures { IfOk result (λ answer. Answers (Reached graph.now built.now) (spec.view_in (length built.now.packages) words.now) answer.items) }
{
    match view_in(words, built.node_count()) {
        Some((direction, initials)) => reached(alloc, graph, built, direction, initials),
        None => broken(alloc),
    }
}
