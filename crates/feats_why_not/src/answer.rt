//! Answers about parts.
ghost use Rattle.std.specs.Prelude.{◌≡◌, IfOk, map, option_map, string_bytes};
ghost use Rattle.plan_whys.specs.StepViews.{found_text};
ghost use Rattle.feats_why_not.specs.inner.Lists as spec;

use plan_whys::WhyStep;
use std::alloc::{AllocError, Global};

/// The answer about a part in the plan of some words.
#[derive(Clone, Copy)]
pub(crate) enum Answer<'a, 'p> {
    /// The part is built, and on by these steps.
    Explained(&'a [WhyStep<'p>]),
    /// The part is on and isn't built, with the message about that.
    Unbuilt(&'a str),
    Off,
    /// The words have no plan. The message says why.
    NotPlanned(&'a str),
}

/// Returns `Unbuilt` if there is a `message`, else `Explained` with the steps in `found`, or `Off` if `found` is `None`.
fn answer_by<'a, 'p>(
    message: &'a Option<String>,
    found: &'a Option<Vec<WhyStep<'p>>>,
) -> Answer<'a, 'p>
    ensures { spec.answer_text result ≡ spec.answer_by (option_map string_bytes message.now, found_text found.now) }
{
    match (message, found) {
        (Some(message), _) => Answer::Unbuilt(message.as_str()),
        (None, Some(steps)) => Answer::Explained(steps),
        (None, None) => Answer::Off,
    }
}

/// Returns the answer by each of `messages` and the steps at the same place in `founds`.
pub(crate) fn answers_by<'a, 'p>(
    alloc: Global,
    messages: &'a [Option<String>],
    founds: &'a [Option<Vec<WhyStep<'p>>>],
) -> Result<Vec<Answer<'a, 'p>>, AllocError>
    ensures { IfOk result (λ answers. map spec.answer_text answers.items ≡ spec.answers_by (spec.optional_texts messages.now) (map found_text founds.now)) }
{
    let mut answers = Vec::with_capacity(alloc, messages.len())?;
    for (message, found) in messages.iter().zip(founds) {
        answers.push(answer_by(message, found))?;
    }
    Ok(answers)
}
