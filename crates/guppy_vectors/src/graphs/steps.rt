//! Parsing and writing of steps and offers.
use crate::graphs::rules::letter;
use crate::shared::{Failure, Out, halves, number};
use feature_core::engine::{Half, Step, StepReason};
use std::alloc::Global;

/// Parses an offer: the number of an edge, a dot, and a letter; `Words` if `word` isn't one.
fn offer_of(word: &str) -> Result<(usize, Half), Failure> {
    let (edge, letter) = halves(word, ".")?;
    let half = match letter {
        "F" => Half::Full,
        "R" => Half::Required,
        "O" => Half::Optional,
        _ => return Err(Failure::Words),
    };
    Ok((number(edge)?, half))
}

/// Parses a step: a node, a colon, and a reason. The reason is `initial`, an offer, or the number of an edge; `Words` if
/// `word` isn't a step.
fn step_of(word: &str) -> Result<Step, Failure> {
    let (node, reason) = halves(word, ":")?;
    let reason = if reason == "initial" {
        StepReason::Initial
    } else if reason.contains('.') {
        let (edge, half) = offer_of(reason)?;
        StepReason::Offer(edge, half)
    } else {
        StepReason::Edge(number(reason)?)
    };
    Ok(Step {
        node: number(node)?,
        reason,
    })
}

/// Parses each word of `words` as a step. `Words` if one isn't a step, or `Memory`.
pub fn steps_of(alloc: Global, words: &str) -> Result<Vec<Step>, Failure> {
    let mut steps = Vec::new(alloc);
    for word in words.split_whitespace() {
        steps.push(step_of(word)?)?;
    }
    Ok(steps)
}

/// Parses each word of `words` as an offer. `Words` if one isn't an offer, or `Memory`.
pub fn offers_of(alloc: Global, words: &str) -> Result<Vec<(usize, Half)>, Failure> {
    let mut offers = Vec::new(alloc);
    for word in words.split_whitespace() {
        offers.push(offer_of(word)?)?;
    }
    Ok(offers)
}

/// Writes `steps` on one line, in the form that `steps_of` parses.
pub fn tell_script(out: &Out, steps: &[Step]) {
    let mut between = "";
    for step in steps {
        out.number(between, step.node);
        match step.reason {
            StepReason::Initial => out.part(":initial"),
            StepReason::Edge(edge) => out.number(":", edge),
            StepReason::Offer(edge, half) => {
                out.number(":", edge);
                out.text(".", letter(half));
            }
        }
        between = " ";
    }
    out.line("");
}

/// Writes each step of a walk on a line, then `refused` and each refused offer on a line.
pub fn tell_steps(out: &Out, steps: &[Step], refused: &[(usize, Half)]) {
    for step in steps {
        out.number("- ", step.node);
        match step.reason {
            StepReason::Initial => out.part(" initial"),
            StepReason::Edge(edge) => out.number(" edge ", edge),
            StepReason::Offer(edge, half) => {
                out.number(" offer ", edge);
                out.part(letter(half));
            }
        }
        out.line("");
    }
    out.line("refused");
    for (edge, half) in refused {
        out.number("- ", *edge);
        out.line(letter(*half));
    }
}
