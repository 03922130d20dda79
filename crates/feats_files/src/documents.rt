//! The JSON document in a text.
ghost use Rattle.std.specs.Prelude.{◌≡◌, Some, IfOk, IfErr};
ghost use Rattle.json.specs.Value.{value_view};
ghost use Rattle.feats_files.specs.Documents.{IsNoDocument, document, not_json_message};
ghost use Rattle.feats_files.specs.Messages.{IsRefused, Says};

use crate::fault::Fault;
use crate::message::refused;
use cargo_json::{Unread, read};
use json::{Reader, Scratch, Value};
use std::alloc::Global;

/// The depth to which arrays and objects may nest.
const MAX_DEPTH: usize = 127;

/// Returns the refusal of a document that isn't JSON.
fn not_json(alloc: Global) -> Fault
    ensures { IsRefused not_json_message result }
{
    refused(
        alloc,
        &["the document isn't JSON: make it by `cargo metadata --format-version 1 --all-features`"],
    )
}

/// Parses `text` as one document. It is refused if it isn't one, or nests deeper than `MAX_DEPTH`.
pub fn document_of<'t>(
    alloc: Global,
    text: &'t str,
    scratch: &'t mut Scratch,
) -> Result<Value<'t>, Fault>
    ensures document { IfOk result (λ it. document text.now ≡ Some (value_view it)) }
    ensures fault { IfErr result (λ fault. Says fault (IsNoDocument text.now)) }
{
    let Ok(mut reader) = Reader::new(text, scratch) else {
        return Err(Fault::Memory);
    };
    match read(alloc, &mut reader, MAX_DEPTH) {
        Ok(value) => match reader.next() {
            None => Ok(value),
            Some(_) => Err(not_json(alloc)),
        },
        Err(Unread::Memory) => Err(Fault::Memory),
        Err(Unread::Invalid) => Err(not_json(alloc)),
    }
}
