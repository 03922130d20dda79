//! Lists of texts that are joined pair by pair.
ghost use Rattle.std.specs.Prelude.{◌≡◌, ◌++◌, IfOk};
ghost use Rattle.feats_why_not.specs.inner.Lists as spec;
ghost use Rattle.feats_why_not.specs.inner.Lists.{texts_of};

use std::alloc::{AllocError, Global};

/// Returns `first`, followed by `second`.
fn one_after(alloc: Global, first: &[u8], second: &[u8]) -> Result<Vec<u8>, AllocError>
    ensures { IfOk result (λ text. text.items ≡ first.now ++ second.now) }
{
    let mut text = Vec::new(alloc);
    text.extend_from_slice(first)?;
    text.extend_from_slice(second)?;
    Ok(text)
}

/// Returns each of `firsts`, followed by the text of `seconds` in its place.
pub(crate) fn joined(
    alloc: Global,
    firsts: &[Vec<u8>],
    seconds: &[Vec<u8>],
) -> Result<Vec<Vec<u8>>, AllocError>
    ensures { IfOk result (λ texts. texts_of texts.items ≡ spec.joined (texts_of firsts.now) (texts_of seconds.now)) }
{
    let mut texts = Vec::with_capacity(alloc, firsts.len())?;
    for (first, second) in firsts.iter().zip(seconds) {
        texts.push(one_after(alloc, first, second)?)?;
    }
    Ok(texts)
}
