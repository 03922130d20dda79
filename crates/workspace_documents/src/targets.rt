//! The targets of a package, and fields that may be missing.
ghost use Rattle.std.specs.Prelude.{◌≡◌, [], IfOk, codes, map, option_map};
ghost use Rattle.std.specs.Option.{unwrap_or};
ghost use Rattle.json.specs.Value.{value_view, items_view};
ghost use Rattle.cargo_workspaces.specs.Views.{target_text};
ghost use Rattle.workspace_documents.specs.Targets as spec;
ghost use Rattle.workspace_documents.specs.Views.{text_view};

use cargo_json::{DocumentFault, Place, texts_in};
use cargo_workspaces::Target;
use json::Value;
use std::alloc::{AllocError, Global};

/// Returns the field `name` of `object` if it is a text.
pub(crate) fn text_at<'v>(object: &Value<'v>, name: &'static str) -> Option<&'v str>
    ensures { option_map text_view result ≡ spec.text_at name.now (value_view object.now) }
{
    match object.get(name) {
        Some(Value::String(text)) => Some(*text),
        _ => None,
    }
}

/// Returns whether the field `name` of `object` is true.
fn flag_at(object: &Value<'_>, name: &'static str) -> bool
    ensures { result ≡ spec.flag_at name.now (value_view object.now) }
{
    match object.get(name) {
        Some(Value::Bool(flag)) => *flag,
        _ => false,
    }
}

/// Returns the texts of the field `name` of `object`, or none if it isn't a list of texts. The only error is out of memory.
#[tactic(auto, using(crate::proofs::LooseFields::texts_read, crate::proofs::LooseFields::texts_unread))]
pub(crate) fn texts_at<'v>(
    alloc: Global,
    object: &Value<'v>,
    name: &'static str,
) -> Result<Vec<&'v str>, AllocError>
    ensures { IfOk result (λ texts. map text_view texts.items ≡ spec.texts_at name.now (value_view object.now)) }
{
    match texts_in(alloc, object, Place::Document, name) {
        Ok(texts) => Ok(texts),
        Err(DocumentFault::Memory) => Err(AllocError),
        Err(_) => Ok(Vec::new(alloc)),
    }
}

/// Returns the name of a target, or an empty text if `object` has none.
fn name_of<'v>(object: &Value<'v>) -> &'v str
    ensures { text_view result ≡ unwrap_or (spec.text_at (codes "name") (value_view object.now)) [] }
{
    match text_at(object, "name") {
        Some(name) => name,
        None => "",
    }
}

/// Reads a target. The only error is out of memory.
#[tactic(auto, unfolding(crate::specs::Targets::target_in))]
fn target_of<'v>(alloc: Global, object: &Value<'v>) -> Result<Target<'v>, AllocError>
    ensures { IfOk result (λ target. target_text target ≡ spec.target_in (value_view object.now)) }
{
    let kinds = texts_at(alloc, object, "kind")?;
    let crate_types = texts_at(alloc, object, "crate_types")?;
    let required_features = texts_at(alloc, object, "required-features")?;
    Ok(Target {
        name: name_of(object),
        kinds,
        crate_types,
        test: flag_at(object, "test"),
        doctest: flag_at(object, "doctest"),
        required_features,
    })
}

/// Reads the targets of a package. The only error is out of memory.
pub(crate) fn targets_of<'v>(
    alloc: Global,
    objects: &Vec<Value<'v>>,
) -> Result<Vec<Target<'v>>, AllocError>
    ensures { IfOk result (λ targets. map target_text targets.items ≡ spec.targets_in (items_view objects.now.items)) }
{
    let mut targets = Vec::with_capacity(alloc, objects.len())?;
    for object in objects {
        targets.push(target_of(alloc, object)?)?;
    }
    Ok(targets)
}
