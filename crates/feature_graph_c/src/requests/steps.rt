//! Steps and offers, from the words of a request and as bytes.
ghost use Rattle.std.specs.Prelude.{◌≡◌, ◌++◌, IfOk, OnOk, map};
ghost use Rattle.std.specs.Option.{option_map};
ghost use Rattle.feature_graph_c.specs.requests.Contents as content;
ghost use Rattle.feature_graph_c.specs.requests.Requests as spec;

use crate::binary::{Entries, push_number};
use crate::requests::requests::{half_in, reason_in};
use std::alloc::{AllocError, Global};
use walk_engine::{Half, Step, StepReason};

/// Returns the step at the beginning of `words`, and the words after it, or `None`.
fn step_in(words: &[usize]) -> Option<(Step, &[usize])>
    ensures { option_map (λ p. (p.0, p.1.now)) result ≡ spec.step_in words.now }
{
    match words {
        [node, reason, edge, rest @ ..] => {
            let reason = reason_in(*reason, *edge)?;
            let node = *node;
            Some((Step { node, reason }, rest))
        }
        _ => None,
    }
}

/// Returns `count` steps at the beginning of `words`, and the words after them, or `None`.
fn some_steps(
    alloc: Global,
    count: usize,
    words: &[usize],
) -> Result<Option<(Vec<Step>, &[usize])>, AllocError>
    ensures { IfOk result (λ found. option_map (λ p. (p.0.items, p.1.now)) found ≡ spec.many_in spec.step_in count words.now) }
{
    let mut steps = Vec::new(alloc);
    let mut rest = words;
    for _ in 0..count {
        let Some((step, tail)) = step_in(rest) else {
            return Ok(None);
        };
        steps.push(step)?;
        rest = tail;
    }
    Ok(Some((steps, rest)))
}

/// Returns the list of steps at the beginning of `words`, and the words after it, or `None`.
pub(crate) fn steps_in(
    alloc: Global,
    words: &[usize],
) -> Result<Option<(Vec<Step>, &[usize])>, AllocError>
    ensures { IfOk result (λ found. option_map (λ p. (p.0.items, p.1.now)) found ≡ spec.list_in spec.step_in words.now) }
{
    match words {
        [] => Ok(None),
        [count, rest @ ..] => some_steps(alloc, *count, rest),
    }
}

/// Returns the offer at the beginning of `words`, and the words after it, or `None`.
fn offer_in(words: &[usize]) -> Option<((usize, Half), &[usize])>
    ensures { option_map (λ p. (p.0, p.1.now)) result ≡ spec.offer_in words.now }
{
    match words {
        [edge, half, rest @ ..] => {
            let half = half_in(*half)?;
            Some(((*edge, half), rest))
        }
        _ => None,
    }
}

/// Returns `count` offers at the beginning of `words`, and the words after them, or `None`.
fn some_offers(
    alloc: Global,
    count: usize,
    words: &[usize],
) -> Result<Option<(Vec<(usize, Half)>, &[usize])>, AllocError>
    ensures { IfOk result (λ found. option_map (λ p. (p.0.items, p.1.now)) found ≡ spec.many_in spec.offer_in count words.now) }
{
    let mut offers = Vec::new(alloc);
    let mut rest = words;
    for _ in 0..count {
        let Some((offer, tail)) = offer_in(rest) else {
            return Ok(None);
        };
        offers.push(offer)?;
        rest = tail;
    }
    Ok(Some((offers, rest)))
}

/// Returns the list of offers at the beginning of `words`, and the words after it, or `None`.
pub(crate) fn offers_in(
    alloc: Global,
    words: &[usize],
) -> Result<Option<(Vec<(usize, Half)>, &[usize])>, AllocError>
    ensures { IfOk result (λ found. option_map (λ p. (p.0.items, p.1.now)) found ≡ spec.list_in spec.offer_in words.now) }
{
    match words {
        [] => Ok(None),
        [count, rest @ ..] => some_offers(alloc, *count, rest),
    }
}

/// Returns the number of a half.
fn half_number(half: Half) -> usize
    ensures { result ≡ content.half_number half }
{
    match half {
        Half::Full => 0,
        Half::Required => 1,
        Half::Optional => 2,
    }
}

/// Returns the number of a reason.
fn reason_number(reason: StepReason) -> usize
    ensures { result ≡ content.reason_number reason }
{
    match reason {
        StepReason::Initial => 0,
        StepReason::Edge(_) => 1,
        StepReason::Offer(_, half) => 2 + half_number(half),
    }
}

/// Returns the edge of a reason, or 0.
fn reason_edge(reason: StepReason) -> usize
    ensures { result ≡ content.reason_edge reason }
{
    match reason {
        StepReason::Initial => 0,
        StepReason::Edge(edge) | StepReason::Offer(edge, _) => edge,
    }
}

/// Appends a step.
fn push_step(bytes: &mut Vec<u8>, step: Step) -> Result<(), AllocError>
    ensures { OnOk result (bytes.new.items ≡ bytes.old.items ++ content.step_record step) }
{
    push_number(bytes, step.node)?;
    push_number(bytes, reason_number(step.reason))?;
    push_number(bytes, reason_edge(step.reason))
}

/// Steps.
#[derive(Clone, Copy)]
pub(crate) struct Steps<'a>(pub(crate) &'a [Step]);

impl Entries for Steps<'_> {
    ghost entries = { λ steps. map content.step_record steps.0.now };

    fn count(&self) -> usize {
        self.0.len()
    }

    fn push(&self, at: usize, bytes: &mut Vec<u8>) -> Result<(), AllocError> {
        push_step(bytes, self.0[at])
    }
}

/// Appends an offer.
fn push_offer(bytes: &mut Vec<u8>, offer: (usize, Half)) -> Result<(), AllocError>
    ensures { OnOk result (bytes.new.items ≡ bytes.old.items ++ content.offer_record offer) }
{
    push_number(bytes, offer.0)?;
    push_number(bytes, half_number(offer.1))
}

/// Offers.
#[derive(Clone, Copy)]
pub(crate) struct Offers<'a>(pub(crate) &'a [(usize, Half)]);

impl Entries for Offers<'_> {
    ghost entries = { λ offers. map content.offer_record offers.0.now };

    fn count(&self) -> usize {
        self.0.len()
    }

    fn push(&self, at: usize, bytes: &mut Vec<u8>) -> Result<(), AllocError> {
        push_offer(bytes, self.0[at])
    }
}
