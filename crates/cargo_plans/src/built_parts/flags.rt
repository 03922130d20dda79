//! Flags by number.
ghost use Rattle.std.specs.Prelude.{◌≡◌, ◌<◌, ◌||◌, ℕ, OnOk, length, nat_eq};
ghost use Rattle.cargo_plans.specs.built_parts.BuiltViews.{flag_at};

use std::alloc::AllocError;

/// Returns the flag at `number`, false past the end.
pub(crate) fn flag_of(flags: &[bool], number: usize) -> bool
    ensures { result ≡ flag_at flags.now number }
{
    number < flags.len() && flags[number]
}

/// Appends false until `flags` has a flag at `number`.
fn reach(flags: &mut Vec<bool>, number: usize) -> Result<(), AllocError>
    ensures room { OnOk result (number < length flags.new.items) }
    ensures same { OnOk result ((k : ℕ) → flag_at flags.new.items k ≡ flag_at flags.old.items k) }
{
    while flags.len() <= number {
        flags.push(false)?;
    }
    Ok(())
}

/// Sets the flag at `number` to true.
pub(crate) fn mark(flags: &mut Vec<bool>, number: usize) -> Result<(), AllocError>
    ensures { OnOk result ((k : ℕ) → flag_at flags.new.items k ≡ (flag_at flags.old.items k || nat_eq number k)) }
{
    reach(flags, number)?;
    flags[number] = true;
    Ok(())
}
