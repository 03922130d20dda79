//! JSON in which no byte is special in a page.
ghost use Rattle.std.specs.Prelude.{◌≡◌, ◌≤◌, ◌++◌, ◌∷◌, IfOk, OnOk, false, length};
ghost use Rattle.std.specs.List.{list_any};
ghost use Rattle.page_data.specs.Pages as spec;

use std::alloc::{AllocError, Global};

/// Appends `part`.
fn push_str(text: &mut Vec<u8>, part: &str) -> Result<(), AllocError>
    ensures { OnOk result (text.new.items ≡ text.old.items ++ part.now) }
{
    text.extend_from_slice(part.as_bytes())
}

/// Appends `byte`, or its escape if it is special in a page.
fn push_byte(text: &mut Vec<u8>, byte: u8) -> Result<(), AllocError>
    ensures { OnOk result (text.new.items ≡ text.old.items ++ spec.safe_byte byte) }
{
    match byte {
        b'<' => push_str(text, "\\u003c"),
        b'>' => push_str(text, "\\u003e"),
        b'&' => push_str(text, "\\u0026"),
        _ => {
            text.push(byte)?;
            Ok(())
        }
    }
}

/// Returns whether these three bytes are U+2028 or U+2029.
fn is_separator(first: u8, second: u8, third: u8) -> bool
    ensures { result ≡ spec.is_separator first second third }
{
    first == 226 && second == 128 && (third == 168 || third == 169)
}

/// Appends the escape of the separator whose third byte is `third`.
fn push_separator(text: &mut Vec<u8>, third: u8) -> Result<(), AllocError>
    ensures { OnOk result (text.new.items ≡ text.old.items ++ spec.separator_escape third) }
{
    if third == 168 {
        push_str(text, "\\u2028")
    } else {
        push_str(text, "\\u2029")
    }
}

/// Appends the character that begins `first` and `after`, or its escape. If the character has no escape, only its first byte may be
/// appended. Returns the bytes that are left.
fn push_first<'t>(text: &mut Vec<u8>, first: u8, after: &'t [u8]) -> Result<&'t [u8], AllocError>
    ensures left { IfOk result (λ left. length left.now ≤ length after.entry.now) }
    ensures text { IfOk result (λ left. text.new.items ++ spec.page_safe left.now ≡ text.old.items ++ spec.page_safe (first ∷ after.entry.now)) }
{
    match after {
        [second, third, behind @ ..] if is_separator(first, *second, *third) => {
            push_separator(text, *third)?;
            Ok(behind)
        }
        _ => {
            push_byte(text, first)?;
            Ok(after)
        }
    }
}

/// Returns `json` with escapes in place of what is special in a page.
fn escaped(alloc: Global, json: &[u8]) -> Result<Vec<u8>, AllocError>
    ensures { IfOk result (λ text. text.items ≡ spec.page_safe json.now) }
{
    let mut text = Vec::with_capacity(alloc, json.len())?;
    let mut rest = json;
    while let [first, after @ ..] = rest {
        rest = push_first(&mut text, *first, after)?;
    }
    Ok(text)
}

/// Returns JSON with the value of `json`, in which `<`, `>`, `&`, U+2028 and U+2029 are written as escapes such as `\u003c`. In JSON
/// these characters occur only in strings, so the value is the same. The text can't end an element of a page. An allocation's failure
/// is the only error.
pub fn page_safe(alloc: Global, json: &[u8]) -> Result<Vec<u8>, AllocError>
    ensures text { IfOk result (λ text. text.items ≡ spec.page_safe json.now) }
    ensures safe { IfOk result (λ text. list_any spec.is_markup text.items ≡ false) }
{
    escaped(alloc, json)
}
