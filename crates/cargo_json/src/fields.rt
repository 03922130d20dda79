//! Fields of JSON objects, with their types checked.
ghost use Rattle.std.specs.Prelude.{option_map, map};
ghost use Rattle.json.specs.Value.{value_view, items_view, members_view};
ghost use Rattle.cargo_json.specs.Faults.{Gives};
ghost use Rattle.cargo_json.specs.Fields as spec;

use crate::fault::{DocumentFault, Place};
use json::Value;
use std::alloc::Global;

/// Returns the text in the field `name`. The error is `Field` if it is missing or of another type.
pub fn text_in<'v>(
    object: &Value<'v>,
    place: Place,
    name: &'static str,
) -> Result<&'v str, DocumentFault>
    ensures { Gives (λ s. s.now) result (spec.text_in place name.now (value_view object.now)) }
{
    match object.get(name) {
        Some(Value::String(text)) => Ok(*text),
        _ => Err(DocumentFault::Field { place, name }),
    }
}

/// Returns the text in the field `name`, or `None` if it is null. The error is `Field` if it is missing or of
/// another type.
pub fn optional_text_in<'v>(
    object: &Value<'v>,
    place: Place,
    name: &'static str,
) -> Result<Option<&'v str>, DocumentFault>
    ensures { Gives (λ o. option_map (λ s. s.now) o) result (spec.optional_text_in place name.now (value_view object.now)) }
{
    match object.get(name) {
        Some(Value::String(text)) => Ok(Some(*text)),
        Some(Value::Null) => Ok(None),
        _ => Err(DocumentFault::Field { place, name }),
    }
}

/// Returns the boolean in the field `name`. The error is `Field` if it is missing or of another type.
pub fn flag_in(object: &Value<'_>, place: Place, name: &'static str) -> Result<bool, DocumentFault>
    ensures { Gives (λ b. b) result (spec.flag_in place name.now (value_view object.now)) }
{
    match object.get(name) {
        Some(Value::Bool(flag)) => Ok(*flag),
        _ => Err(DocumentFault::Field { place, name }),
    }
}

/// Returns the list in the field `name`. The error is `Field` if it is missing or of another type.
pub fn list_in<'d, 'v>(
    object: &'d Value<'v>,
    place: Place,
    name: &'static str,
) -> Result<&'d Vec<Value<'v>>, DocumentFault>
    ensures { Gives (λ v. items_view v.now.items) result (spec.list_in place name.now (value_view object.now)) }
{
    match object.get(name) {
        Some(Value::Array(items)) => Ok(items),
        _ => Err(DocumentFault::Field { place, name }),
    }
}

/// Returns the object in the field `name`. The error is `Field` if it is missing or of another type.
pub fn object_in<'d, 'v>(
    object: &'d Value<'v>,
    place: Place,
    name: &'static str,
) -> Result<&'d Vec<(&'v str, Value<'v>)>, DocumentFault>
    ensures { Gives (λ m. members_view m.now.items) result (spec.object_in place name.now (value_view object.now)) }
{
    match object.get(name) {
        Some(Value::Object(members)) => Ok(members),
        _ => Err(DocumentFault::Field { place, name }),
    }
}

/// Returns the texts of a list. The error is `Field` with the list's field `name` if an item isn't a text, or
/// `Memory`.
pub fn texts_of<'v>(
    alloc: Global,
    items: &Vec<Value<'v>>,
    place: Place,
    name: &'static str,
) -> Result<Vec<&'v str>, DocumentFault>
    ensures { Gives (λ texts. map (λ s. s.now) texts.items) result (spec.wanted place name.now (spec.all_texts (items_view items.now.items))) }
{
    let mut texts = Vec::with_capacity(alloc, items.len())?;
    for item in items {
        let Some(text) = item.as_str() else {
            return Err(DocumentFault::Field { place, name });
        };
        texts.push(text)?;
    }
    Ok(texts)
}

/// Returns the list of texts in the field `name`. The error is `Field` if it is missing or of another type,
/// or `Memory`.
pub fn texts_in<'v>(
    alloc: Global,
    object: &Value<'v>,
    place: Place,
    name: &'static str,
) -> Result<Vec<&'v str>, DocumentFault>
    ensures { Gives (λ texts. map (λ s. s.now) texts.items) result (spec.texts_in place name.now (value_view object.now)) }
{
    texts_of(alloc, list_in(object, place, name)?, place, name)
}
