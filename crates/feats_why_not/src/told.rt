//! Parts with the answers about them.
ghost use Rattle.std.specs.Prelude.{◌≡◌, IfOk, map, zip};
ghost use Rattle.feats_why_not.specs.PartView.{part_text};
ghost use Rattle.feats_why_not.specs.inner.Lists as spec;

use crate::answer::Answer;
use crate::parts::OffPart;
use crate::typed_words::TypedWords;
use std::alloc::{AllocError, Global};

/// A part and the answer about it.
#[derive(Clone, Copy)]
pub(crate) struct PartAnswer<'a, 'p, 'w> {
    pub(crate) part: OffPart<'w>,
    pub(crate) answer: Answer<'a, 'p>,
}

/// A part, the answer about it, and the words to type.
#[derive(Clone, Copy)]
pub(crate) struct Told<'a, 'p, 'w> {
    pub(crate) about: PartAnswer<'a, 'p, 'w>,
    pub(crate) typed: Option<TypedWords<'p>>,
}

/// Returns each of `parts` with the answer at the same place in `answers`.
pub(crate) fn with_answers<'a, 'p, 'w>(
    alloc: Global,
    parts: &[OffPart<'w>],
    answers: &[Answer<'a, 'p>],
) -> Result<Vec<PartAnswer<'a, 'p, 'w>>, AllocError>
    ensures { IfOk result (λ abouts. map spec.about_value abouts.items ≡ zip (map part_text parts.now) (map spec.answer_text answers.now)) }
{
    let mut abouts = Vec::with_capacity(alloc, parts.len())?;
    for (part, answer) in parts.iter().zip(answers) {
        abouts.push(PartAnswer {
            part: *part,
            answer: *answer,
        })?;
    }
    Ok(abouts)
}
