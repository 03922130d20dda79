//! Messages of parts.
ghost use Rattle.std.specs.Prelude.{◌≡◌, ◌++◌, IfOk, OnOk, string_bytes};
ghost use Rattle.feats_files.specs.Messages.{IsRefused};
ghost use Rattle.feats_files.specs.Parts.{parts_text};
ghost use Rattle.shown_texts.specs.Shown as shown_texts;

use crate::fault::Fault;
use shown_texts::escaped;
use std::alloc::{AllocError, Global};

/// Returns the text of `parts`, one after the other.
pub(crate) fn text_of(alloc: Global, parts: &[&str]) -> Result<String, AllocError>
    ensures { IfOk result (λ text. string_bytes text ≡ parts_text parts.now) }
{
    let mut text = String::new(alloc);
    for part in parts {
        text.push_str(part)?;
    }
    Ok(text)
}

/// Appends `part` with its control characters escaped.
pub fn push_escaped(alloc: Global, text: &mut String, part: &str) -> Result<(), AllocError>
    ensures { OnOk result (string_bytes text.new ≡ string_bytes text.old ++ shown_texts.escaped part.now) }
{
    let shown = escaped(alloc, part)?;
    text.push_str(shown.as_str())?;
    Ok(())
}

/// Returns the refusal with the message of `parts`, or `Memory`.
pub fn refused(alloc: Global, parts: &[&str]) -> Fault
    ensures { IsRefused (parts_text parts.now) result }
{
    match text_of(alloc, parts) {
        Ok(message) => Fault::Refused { message },
        Err(_) => Fault::Memory,
    }
}
