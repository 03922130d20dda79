//! Lists of numbers, and sets of them.
ghost use Rattle.std.specs.Prelude.{◌≡◌, ◌++◌, ◌∷◌, [], IfOk, OnOk, if◌then◌else◌};
ghost use Rattle.digraphs.specs.Bits.{has, members};

use digraphs::IxBitSet;
use std::alloc::{AllocError, Global};

/// Returns whether `number` is in `set`; false for a number that isn't below its bound.
pub(crate) fn holds(set: &IxBitSet, number: usize) -> bool
    ensures { result ≡ has set.now number }
{
    number < set.size() && set.contains(number)
}

/// Returns the numbers in `set`, ascending.
pub(crate) fn members_of(alloc: Global, set: &IxBitSet) -> Result<Vec<usize>, AllocError>
    ensures { IfOk result (λ numbers. numbers.items ≡ members set.now) }
{
    let mut numbers = Vec::new(alloc);
    for number in set.ones() {
        numbers.push(number)?;
    }
    Ok(numbers)
}

/// Appends `number`, if `flag`.
pub(crate) fn push_if(numbers: &mut Vec<usize>, number: usize, flag: bool) -> Result<(), AllocError>
    ensures { OnOk result (numbers.new.items ≡ numbers.old.items ++ (if flag then number ∷ [] else [])) }
{
    if flag {
        numbers.push(number)?;
    }
    Ok(())
}
