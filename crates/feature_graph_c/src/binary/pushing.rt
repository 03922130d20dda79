//! Records appended to bytes.
ghost use Rattle.std.specs.Prelude.{◌≡◌, ◌<◌, ◌++◌, OnOk, Some, length, slice_get};
ghost use Rattle.feature_graph_c.specs.binary.Records.{flag, list, listed, number, text};

use std::alloc::AllocError;

/// Appends a number.
pub fn push_number(bytes: &mut Vec<u8>, n: usize) -> Result<(), AllocError>
    ensures { OnOk result (bytes.new.items ≡ bytes.old.items ++ number n) }
{
    bytes.extend_from_slice(&n.to_le_bytes())
}

/// Appends a flag.
pub fn push_flag(bytes: &mut Vec<u8>, value: bool) -> Result<(), AllocError>
    ensures { OnOk result (bytes.new.items ≡ bytes.old.items ++ flag value) }
{
    if value {
        push_number(bytes, 1)
    } else {
        push_number(bytes, 0)
    }
}

/// Appends a text.
pub fn push_text(bytes: &mut Vec<u8>, value: &str) -> Result<(), AllocError>
    ensures { OnOk result (bytes.new.items ≡ bytes.old.items ++ text value.now) }
{
    push_number(bytes, value.len())?;
    bytes.extend_from_slice(value.as_bytes())
}

/// A list whose entries can be appended one by one.
pub trait Entries {
    ghost use Rattle.std.specs.Prelude.{List, ℕ};

    /// The records of the entries.
    ghost entries: { Self → List (List ℕ) };

    /// Returns the number of entries.
    fn count(&self) -> usize
        ensures { result ≡ length (entries self.now) };

    /// Appends entry `at`.
    fn push(&self, at: usize, bytes: &mut Vec<u8>) -> Result<(), AllocError>
        requires { at < length (entries self.now) }
        ensures { OnOk result ((entry : List ℕ) × (slice_get (entries self.now) at ≡ Some entry) × (bytes.new.items ≡ bytes.old.items ++ entry)) };
}

/// Appends a list.
pub fn push_list<E: Entries>(bytes: &mut Vec<u8>, list: &E) -> Result<(), AllocError>
    ensures { OnOk result (bytes.new.items ≡ bytes.old.items ++ listed (E.entries list.now)) }
{
    let count = list.count();
    push_number(bytes, count)?;
    for at in 0..count {
        list.push(at, bytes)?;
    }
    Ok(())
}

/// A list of numbers.
#[derive(Clone, Copy)]
pub struct Numbers<'a>(pub &'a [usize]);

impl Entries for Numbers<'_> {
    ghost use Rattle.std.specs.Prelude.{map};

    ghost entries = { λ numbers. map number numbers.0.now };

    fn count(&self) -> usize {
        self.0.len()
    }

    fn push(&self, at: usize, bytes: &mut Vec<u8>) -> Result<(), AllocError> {
        push_number(bytes, self.0[at])
    }
}
