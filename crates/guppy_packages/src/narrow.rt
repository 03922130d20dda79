//! Places in 32 bits.
ghost use Rattle.std.specs.Prelude.{◌≡◌, IfOk};

use std::alloc::AllocError;

/// The greatest place that fits in 32 bits.
pub(crate) const LAST_PLACE: usize = 4294967295;

/// Returns `place` in 32 bits, or `AllocError` if it doesn't fit.
pub(crate) fn narrow(place: usize) -> Result<u32, AllocError>
    ensures { IfOk result (λ narrow. narrow ≡ place) }
{
    if place > LAST_PLACE {
        return Err(AllocError);
    }
    Ok(place as u32)
}
