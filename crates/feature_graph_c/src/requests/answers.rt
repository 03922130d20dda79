//! Answers: a status, and the content if there is one.
ghost use Rattle.std.specs.Prelude.{◌≡◌, IfOk};
ghost use Rattle.feature_graph_c.specs.binary.Records.{list, number};
ghost use Rattle.feature_graph_c.specs.requests.Answers as spec;

use crate::binary::{Numbers, push_list, push_number};
use std::alloc::{AllocError, Global};

/// Returns the status of an answer with a content.
pub fn status(alloc: Global) -> Result<Vec<u8>, AllocError>
    ensures { IfOk result (λ answer. answer.items ≡ number 0) }
{
    let mut answer = Vec::new(alloc);
    push_number(&mut answer, 0)?;
    Ok(answer)
}

/// Returns the answer to a broken request.
pub fn broken(alloc: Global) -> Result<Vec<u8>, AllocError>
    ensures { IfOk result (λ answer. answer.items ≡ spec.broken) }
{
    let mut answer = Vec::new(alloc);
    push_number(&mut answer, 2)?;
    Ok(answer)
}

/// Returns the answer whose content is the list of `numbers`.
pub(crate) fn with_numbers(alloc: Global, numbers: &[usize]) -> Result<Vec<u8>, AllocError>
    ensures { IfOk result (λ answer. answer.items ≡ spec.answer_with (list number numbers.now)) }
{
    let mut answer = status(alloc)?;
    push_list(&mut answer, &Numbers(numbers))?;
    Ok(answer)
}
