//! Answers as a terminal can show them.
ghost use Rattle.std.specs.Prelude.{◌≡◌, true, IfOk};
ghost use Rattle.shown_texts.specs.Plain.{is_plain};
ghost use Rattle.feats_files.specs.Showing.{shown_in};

use feats_words::Format;
use shown_texts::{shown_json, shown_text};
use std::alloc::{AllocError, Global};

/// Returns the answer `text` in `format` as it is written: each control character but the line feeds is escaped.
pub fn shown_answer(alloc: Global, format: Format, text: &[u8]) -> Result<Vec<u8>, AllocError>
    ensures shown { IfOk result (λ shown. shown.items ≡ shown_in format text.now) }
    ensures plain { IfOk result (λ shown. is_plain shown.items ≡ true) }
{
    match format {
        Format::Text => shown_text(alloc, text),
        Format::Json => shown_json(alloc, text),
    }
}
