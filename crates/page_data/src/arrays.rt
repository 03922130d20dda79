//! Arrays of JSON, an element a line.
ghost use Rattle.std.specs.Prelude.{◌≡◌, ◌++◌, ◌∷◌, ℕ, List, IfOk, OnOk, false, flat_map};
ghost use Rattle.std.specs.List.{list_any};
ghost use Rattle.page_data.specs.Arrays as spec;

use std::alloc::{AllocError, Global};

/// Appends `byte`, and before a line feed a comma.
fn push_separated(text: &mut Vec<u8>, byte: u8) -> Result<(), AllocError>
    ensures { OnOk result (text.new.items ≡ text.old.items ++ spec.separated_byte byte) }
{
    if byte == b'\n' {
        text.push(b',')?;
    }
    text.push(byte)?;
    Ok(())
}

/// Appends `first`, and before a line feed a comma, unless no byte is `after` it.
fn push_first(text: &mut Vec<u8>, first: u8, after: &[u8]) -> Result<(), AllocError>
    ensures { OnOk result (text.new.items ++ spec.separated after.now ≡ text.old.items ++ spec.separated (first ∷ after.now)) }
{
    match after {
        [] => {
            text.push(first)?;
            Ok(())
        }
        [_, ..] => push_separated(text, first),
    }
}

/// Appends `lines`, with a comma before each line feed but one at the end.
fn push_lines(text: &mut Vec<u8>, lines: &[u8]) -> Result<(), AllocError>
    ensures { OnOk result (text.new.items ≡ text.old.items ++ spec.separated lines.now) }
{
    let mut rest = lines;
    while let [first, after @ ..] = rest {
        push_first(text, *first, after)?;
        rest = after;
    }
    Ok(())
}

/// Returns `[` and a line feed, `lines` with a comma after each but the last, and `]`.
fn bracketed(alloc: Global, lines: &[u8]) -> Result<Vec<u8>, AllocError>
    ensures { IfOk result (λ text. text.items ≡ spec.array_of_lines lines.now) }
{
    let mut text = Vec::with_capacity(alloc, lines.len())?;
    text.extend_from_slice(b"[\n")?;
    push_lines(&mut text, lines)?;
    text.push(b']')?;
    Ok(text)
}

/// Returns the array of the elements in `lines`, one on each line: `[` and a line feed, the lines with a comma after each but the
/// last, and `]`. Each line ends with a line feed. An allocation's failure is the only error.
pub fn array_of_lines(alloc: Global, lines: &[u8]) -> Result<Vec<u8>, AllocError>
    ensures text { IfOk result (λ text. text.items ≡ spec.array_of_lines lines.now) }
    ensures elements { IfOk result (λ text. (elements : List (List ℕ)) → list_any spec.has_feed elements ≡ false → lines.now ≡ flat_map spec.line_of elements → text.items ≡ spec.array_of elements) }
{
    bracketed(alloc, lines)
}
