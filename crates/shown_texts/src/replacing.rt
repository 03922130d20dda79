//! Texts with their control characters replaced.
ghost use Rattle.std.specs.Prelude.{◌≡◌, ◌≤◌, ◌++◌, ◌∷◌, IfOk, OnOk, length};
ghost use Rattle.shown_texts.specs.Controls as spec;
ghost use Rattle.shown_texts.specs.inner.Forms.{written_in};

use crate::escapes::{Form, push_control};
use std::alloc::{AllocError, Global};

/// Returns whether `byte` is a control character.
fn is_control(byte: u8) -> bool
    ensures { result ≡ spec.is_control byte }
{
    byte < 32 || byte == 127
}

/// Returns whether these two bytes are a control character.
fn is_control_pair(first: u8, second: u8) -> bool
    ensures { result ≡ spec.is_control_pair first second }
{
    first == 194 && second >= 128 && second < 160
}

/// Appends `byte`, replaced if it is a control character.
fn push_byte(text: &mut Vec<u8>, form: Form, byte: u8) -> Result<(), AllocError>
    ensures { OnOk result (text.new.items ≡ text.old.items ++ spec.replaced_byte (written_in form) byte) }
{
    if is_control(byte) {
        return push_control(text, form, byte);
    }
    text.push(byte)?;
    Ok(())
}

/// Appends the character that begins `first` and `after`, replaced if it is a control character; of any other it may be the first byte
/// alone. Returns the bytes that are left.
fn push_first<'t>(
    text: &mut Vec<u8>,
    form: Form,
    first: u8,
    after: &'t [u8],
) -> Result<&'t [u8], AllocError>
    ensures left { IfOk result (λ left. length left.now ≤ length after.entry.now) }
    ensures text { IfOk result (λ left. text.new.items ++ spec.replaced (written_in form) left.now ≡ text.old.items ++ spec.replaced (written_in form) (first ∷ after.entry.now)) }
{
    match after {
        [second, behind @ ..] if is_control_pair(first, *second) => {
            push_control(text, form, *second)?;
            Ok(behind)
        }
        _ => {
            push_byte(text, form, first)?;
            Ok(after)
        }
    }
}

/// Returns `text`, with its control characters replaced.
pub(crate) fn replaced(alloc: Global, form: Form, text: &[u8]) -> Result<Vec<u8>, AllocError>
    ensures { IfOk result (λ new. new.items ≡ spec.replaced (written_in form) text.now) }
{
    let mut new = Vec::with_capacity(alloc, text.len())?;
    let mut rest = text;
    while let [first, after @ ..] = rest {
        rest = push_first(&mut new, form, *first, after)?;
    }
    Ok(new)
}
