//! Marked numbers.
ghost use Rattle.std.specs.Prelude.{◌≡◌, IfOk, replicate, slice_set, false, true};
ghost use Rattle.feats_policies.specs.checks.inner.Marks.{Marks};

use std::alloc::{AllocError, Global};

/// Returns a list of `count` times `value`.
fn repeated(alloc: Global, count: usize, value: bool) -> Result<Vec<bool>, AllocError>
    ensures { IfOk result (λ list. list.items ≡ replicate count value) }
{
    vec![in alloc; value; count]
}

/// Sets `list` to true at `number`, if that is below its length.
fn mark(list: &mut Vec<bool>, number: usize)
    ensures { list.new.items ≡ slice_set list.old.items number true }
{
    if number < list.len() {
        list[number] = true;
    }
}

/// Returns a list of length `count` that is true at those of `numbers` that are below `count`.
pub(crate) fn marked(
    alloc: Global,
    count: usize,
    numbers: &[usize],
) -> Result<Vec<bool>, AllocError>
    ensures { IfOk result (λ list. Marks count list.items numbers.now) }
{
    let mut list = repeated(alloc, count, false)?;
    for number in numbers {
        mark(&mut list, *number);
    }
    Ok(list)
}
