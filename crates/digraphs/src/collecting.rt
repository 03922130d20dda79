//! Collecting an iterator into a list.
ghost use Rattle.std.specs.Prelude.{◌≡◌, List, IfOk, length, vec_len};
ghost use Rattle.std.specs.Bool.{⊤};
ghost use Rattle.std.specs.Iterator.{DrainsIf, IsFinite};

use std::alloc::{AllocError, Global};

/// Collects an iterator whose length is known. `AllocError` is returned when an allocation fails.
///
/// The whole list is allocated at once. After a failure nothing smaller is tried, unlike `collect`.
pub fn collect_exactly<T: Drop, I: Iterator<Item = T> + ExactSizeIterator>(
    items: I,
    alloc: Global,
) -> Result<Vec<T>, AllocError>
    requires can { I.can_next items }
    requires finite { IsFinite (I.remaining items) }
    ensures ran { IfOk result (λ v. (xs : List T) × DrainsIf I.next_gives ⊤ items xs × ((v.items ≡ xs) × (vec_len v ≡ length xs))) }
{
    let mut all = Vec::with_capacity(alloc, items.len())?;
    all.extend(items)?;
    Ok(all)
}
