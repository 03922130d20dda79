//! Parsing of steps and refused links. A step is an id and its reason: `initial`, `edge` and two ids, or `link` and a link.
//! A link is two ids and a word for the declarations.
use crate::shared::{Words, next_id};
use guppy_features::{FeatureId, LinkDeclarations, Reason};
use std::alloc::{AllocError, Global};

/// A feature, and the reason why it is in the set.
pub type Step<'g> = (FeatureId<'g>, Reason<'g>);

/// A link: its two ends, and the declarations that it covers.
pub type Link<'g> = (FeatureId<'g>, FeatureId<'g>, LinkDeclarations);

/// Returns the declarations that `word` names, or `None`.
fn declarations_of(word: &str) -> Option<LinkDeclarations> {
    match word {
        "unsplit" => Some(LinkDeclarations::Unsplit),
        "required" => Some(LinkDeclarations::Required),
        "optional" => Some(LinkDeclarations::Optional),
        _ => None,
    }
}

/// Reads a link from `words`; `None` at their end, for a `;` or for unknown declarations.
fn next_link<'a>(words: &mut Words<'a>) -> Option<Link<'a>> {
    let from = next_id(words)?;
    let to = next_id(words)?;
    let declarations = declarations_of(words.next()?.word)?;
    Some((from, to, declarations))
}

/// Reads a reason from `words`; `None` if they are no reason.
fn next_reason<'a>(words: &mut Words<'a>) -> Option<Reason<'a>> {
    match words.next()?.word {
        "initial" => Some(Reason::Initial),
        "edge" => Some(Reason::Edge {
            from: next_id(words)?,
            to: next_id(words)?,
        }),
        _ => {
            let (from, to, declarations) = next_link(words)?;
            Some(Reason::Link {
                from,
                to,
                declarations,
            })
        }
    }
}

/// Reads a step from `words`; `None` at their end, for a `;` or without a reason.
fn next_step<'a>(words: &mut Words<'a>) -> Option<Step<'a>> {
    let id = next_id(words)?;
    let reason = next_reason(words)?;
    Some((id, reason))
}

/// Reads the steps up to a `;` or the end of `words`; stops at words that are no step. `AllocError` if an allocation fails.
pub fn steps_of<'a>(alloc: Global, words: &mut Words<'a>) -> Result<Vec<Step<'a>>, AllocError> {
    let mut steps = Vec::new(alloc);
    for _ in 0..words.len() {
        let Some(step) = next_step(words) else { break };
        steps.push(step)?;
    }
    Ok(steps)
}

/// Reads the refused links up to a `;` or the end of `words`; stops at words that are no link. `AllocError` if an allocation
/// fails.
pub fn links_of<'a>(alloc: Global, words: &mut Words<'a>) -> Result<Vec<Link<'a>>, AllocError> {
    let mut links = Vec::new(alloc);
    for _ in 0..words.len() {
        let Some(link) = next_link(words) else { break };
        links.push(link)?;
    }
    Ok(links)
}
