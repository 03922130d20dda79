//! The parts of requests.
ghost use Rattle.std.specs.Prelude.{◌≡◌, IfSome, IsTrue, Some};
ghost use Rattle.std.specs.Option.{option_map};
ghost use Rattle.feature_graph_c.specs.requests.Requests as spec;

use crate::binary::counted;
use guppy_packages::DependencyDirection;
use walk_engine::{Half, StepReason};

/// Returns the direction for a number, or `None`.
fn direction_in(n: usize) -> Option<DependencyDirection>
    ensures { result ≡ spec.direction_in n }
{
    match n {
        0 => Some(DependencyDirection::Forward),
        1 => Some(DependencyDirection::Reverse),
        _ => None,
    }
}

/// Returns the half for a number, or `None`.
pub(crate) fn half_in(n: usize) -> Option<Half>
    ensures { result ≡ spec.half_in n }
{
    match n {
        0 => Some(Half::Full),
        1 => Some(Half::Required),
        2 => Some(Half::Optional),
        _ => None,
    }
}

/// Returns the reason for a number and an edge, or `None`.
pub(crate) fn reason_in(n: usize, edge: usize) -> Option<StepReason>
    ensures { result ≡ spec.reason_in n edge }
{
    match n {
        0 => Some(StepReason::Initial),
        1 => Some(StepReason::Edge(edge)),
        2 => Some(StepReason::Offer(edge, Half::Full)),
        3 => Some(StepReason::Offer(edge, Half::Required)),
        4 => Some(StepReason::Offer(edge, Half::Optional)),
        _ => None,
    }
}

/// Returns whether each of `numbers` is below `count`.
pub(crate) fn are_below(numbers: &[usize], count: usize) -> bool
    ensures { result ≡ spec.are_below count numbers.now }
{
    numbers.iter().all(|n| *n < count)
}

/// Returns the list of nodes at the beginning of `words`, and the words after it, or `None`.
fn nodes_in(words: &[usize], count: usize) -> Option<(&[usize], &[usize])>
    ensures parts { option_map (λ p. (p.0.now, p.1.now)) result ≡ spec.nodes_in count words.now }
    ensures nodes { IfSome result (λ p. IsTrue (spec.are_below count p.0.now)) }
{
    let (nodes, rest) = counted(words)?;
    if are_below(nodes, count) {
        Some((nodes, rest))
    } else {
        None
    }
}

/// Returns the direction and the list of nodes at the beginning of `words`, and the words after them, or `None`.
pub(crate) fn start_in(
    words: &[usize],
    count: usize,
) -> Option<(DependencyDirection, &[usize], &[usize])>
    ensures parts { option_map (λ s. (s.0, (s.1.now, s.2.now))) result ≡ spec.start_in count words.now }
    ensures nodes { IfSome result (λ s. IsTrue (spec.are_below count s.1.now)) }
{
    let [direction, rest @ ..] = words else {
        return None;
    };
    let direction = direction_in(*direction)?;
    let (nodes, rest) = nodes_in(rest, count)?;
    Some((direction, nodes, rest))
}

/// Returns the direction and the nodes of a request for a view, or `None`.
pub(crate) fn view_in(words: &[usize], count: usize) -> Option<(DependencyDirection, &[usize])>
    ensures request { option_map (λ v. (v.0, v.1.now)) result ≡ spec.view_in count words.now }
    ensures nodes { IfSome result (λ v. IsTrue (spec.are_below count v.1.now)) }
{
    match start_in(words, count)? {
        (direction, nodes, []) => Some((direction, nodes)),
        _ => None,
    }
}
