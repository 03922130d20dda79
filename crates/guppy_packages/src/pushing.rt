//! Appending to a list.
ghost use Rattle.std.specs.Prelude.{◌≡◌, ◌++◌, ◌∷◌, [], if◌then◌else◌, is_ok};

use std::alloc::AllocError;

/// Appends `item` to `items`. `AllocError` is the only error, and then `items` is unchanged.
#[inline]
pub(crate) fn push_to<T: Drop>(items: &mut Vec<T>, item: T) -> Result<(), AllocError>
    ensures { items.new.items ≡ (if is_ok result then items.old.items ++ item ∷ [] else items.old.items) }
{
    match items.push(item) {
        Ok(()) => Ok(()),
        Err(_) => Err(AllocError),
    }
}
