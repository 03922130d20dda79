//! Texts that a terminal can show.
ghost use Rattle.std.specs.Prelude.{◌≡◌, true, IfOk, string_bytes};
ghost use Rattle.shown_texts.specs.Plain.{is_plain};
ghost use Rattle.shown_texts.specs.Shown as spec;

use crate::escapes::Form;
use crate::replacing::replaced;
use std::alloc::{AllocError, Global};

/// Returns `text` as a part of a line: each control character is escaped, as `\u{1b}`, the line feed too.
pub fn escaped(alloc: Global, text: &str) -> Result<String, AllocError>
    ensures { IfOk result (λ shown. string_bytes shown ≡ spec.escaped text.now) }
{
    let shown = replaced(alloc, Form::Line, text.as_bytes())?;
    match String::from_utf8(shown) {
        Ok(shown) => Ok(shown),
        // Whole characters were replaced by ASCII, so it is UTF-8.
        Err(_) => Err(AllocError),
    }
}

/// Returns the text of lines `text` with each control character but the line feeds escaped, as `\u{1b}`.
pub fn shown_text(alloc: Global, text: &[u8]) -> Result<Vec<u8>, AllocError>
    ensures shown { IfOk result (λ shown. shown.items ≡ spec.shown_text text.now) }
    ensures plain { IfOk result (λ shown. is_plain shown.items ≡ true) }
{
    replaced(alloc, Form::Text, text)
}

/// Returns the lines of JSON `json` with each control character but the line feeds escaped, as `\u007f`. In JSON they are in strings.
pub fn shown_json(alloc: Global, json: &[u8]) -> Result<Vec<u8>, AllocError>
    ensures shown { IfOk result (λ shown. shown.items ≡ spec.shown_json json.now) }
    ensures plain { IfOk result (λ shown. is_plain shown.items ≡ true) }
{
    replaced(alloc, Form::Json, json)
}
