//! Numbers and flags.
ghost use Rattle.std.specs.Prelude.{◌≡◌, ℕ, IfOk, IsTrue, length, nat_lt};
ghost use Rattle.std.specs.List.{list_all};
ghost use Rattle.digraphs.specs.Bits.{has};
ghost use Rattle.plan_starts.specs.Starts.{is_among};

use digraphs::IxBitSet;
use std::alloc::{AllocError, Global};

/// Returns the set of `numbers`, all below `count`.
pub(crate) fn marks_of(
    alloc: Global,
    count: usize,
    numbers: &[usize],
) -> Result<IxBitSet, AllocError>
    requires { IsTrue (list_all (λ n. nat_lt n count) numbers.now) }
    ensures size { IfOk result (λ set. length set ≡ count) }
    ensures marks { IfOk result (λ set. (k : ℕ) → has set k ≡ is_among numbers.now k) }
{
    let mut set = IxBitSet::empty(alloc, count)?;
    for &number in numbers {
        set.insert(number);
    }
    Ok(set)
}
