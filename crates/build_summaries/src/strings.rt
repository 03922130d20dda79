//! Strings of TOML.
ghost use Rattle.std.specs.Prelude.{◌≡◌, ◌++◌, OnOk, flat_map};
ghost use Rattle.build_summaries.specs.Strings as spec;
ghost use Rattle.build_summaries.specs.Views.{texts};

use shown_texts::shown_json;
use std::alloc::{AllocError, Global};

/// Appends `part`.
pub(crate) fn push_str(text: &mut Vec<u8>, part: &str) -> Result<(), AllocError>
    ensures { OnOk result (text.new.items ≡ text.old.items ++ part.now) }
{
    text.extend_from_slice(part.as_bytes())
}

/// Appends `byte`: a line feed as `\n`, and a quote or a backslash after a backslash.
fn push_byte(text: &mut Vec<u8>, byte: u8) -> Result<(), AllocError>
    ensures { OnOk result (text.new.items ≡ text.old.items ++ spec.escaped_byte byte) }
{
    if byte == b'\n' {
        return push_str(text, "\\n");
    }
    if byte == b'"' || byte == b'\\' {
        text.push(b'\\')?;
    }
    text.push(byte)?;
    Ok(())
}

/// Appends `part` with its line feeds, quotes and backslashes escaped.
fn push_escaped(text: &mut Vec<u8>, part: &[u8]) -> Result<(), AllocError>
    ensures { OnOk result (text.new.items ≡ text.old.items ++ spec.escaped part.now) }
{
    for byte in part {
        push_byte(text, *byte)?;
    }
    Ok(())
}

/// Appends `part` as a basic string of TOML.
#[tactic(auto, unfolding(crate::specs::Strings::string))]
pub(crate) fn push_string(alloc: Global, text: &mut Vec<u8>, part: &[u8]) -> Result<(), AllocError>
    ensures { OnOk result (text.new.items ≡ text.old.items ++ spec.string part.now) }
{
    let mut escaped = Vec::new(alloc);
    push_escaped(&mut escaped, part)?;
    let shown = shown_json(alloc, &escaped)?;
    push_str(text, "\"")?;
    text.extend_from_slice(&shown)?;
    push_str(text, "\"")
}

/// Appends each of `parts` as a string, after a comma.
fn push_more(alloc: Global, text: &mut Vec<u8>, parts: &[&str]) -> Result<(), AllocError>
    ensures { OnOk result (text.new.items ≡ text.old.items ++ flat_map spec.after_comma (texts parts.now)) }
{
    for part in parts {
        push_str(text, ", ")?;
        push_string(alloc, text, part.as_bytes())?;
    }
    Ok(())
}

/// Appends `parts` as strings, with a comma between two of them.
fn push_strings(alloc: Global, text: &mut Vec<u8>, parts: &[&str]) -> Result<(), AllocError>
    ensures { OnOk result (text.new.items ≡ text.old.items ++ spec.strings (texts parts.now)) }
{
    match parts {
        [] => Ok(()),
        [first, more @ ..] => {
            push_string(alloc, text, first.as_bytes())?;
            push_more(alloc, text, more)
        }
    }
}

/// Appends `parts` as an array of strings.
#[tactic(auto, unfolding(crate::specs::Strings::string_array))]
pub(crate) fn push_array(
    alloc: Global,
    text: &mut Vec<u8>,
    parts: &[&str],
) -> Result<(), AllocError>
    ensures { OnOk result (text.new.items ≡ text.old.items ++ spec.string_array (texts parts.now)) }
{
    push_str(text, "[")?;
    push_strings(alloc, text, parts)?;
    push_str(text, "]")
}
