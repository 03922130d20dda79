//! Splits the packages of a document from its other fields, so that they can be dropped one by one.
ghost use Rattle.std.specs.Prelude.{◌≡◌, Some, IfOk, codes, option_map};
ghost use Rattle.std.specs.Str.{bytes_eq};
ghost use Rattle.json.specs.Find.{later_or};
ghost use Rattle.json.specs.Json.{object};
ghost use Rattle.json.specs.Value.{value_view, members_view};
ghost use Rattle.cargo_json.specs.Parts.{Parts};
ghost use Rattle.cargo_json.specs.inner.Members.{fields_of};

use json::Value;
use std::alloc::{AllocFailed, Global};

/// Returns the fields of a document; none if it isn't an object.
fn fields_of<'v>(alloc: Global, document: Value<'v>) -> Vec<(&'v str, Value<'v>)>
    ensures { members_view result.items ≡ fields_of (value_view document.entry) }
{
    match document {
        Value::Object(fields) => fields,
        _ => Vec::new(alloc),
    }
}

/// Returns true if `name` is the name of the field with the packages.
fn lists_packages(name: &str) -> bool
    ensures { result ≡ bytes_eq name.now (codes "packages") }
{
    name == "packages"
}

/// Returns the value that was found later in the document, or else `value`.
fn last<'v>(behind: Option<Value<'v>>, value: Value<'v>) -> Option<Value<'v>>
    ensures { option_map value_view result ≡ later_or (option_map value_view behind.entry) (Some (value_view value.entry)) }
{
    match behind {
        Some(found) => Some(found),
        None => Some(value),
    }
}

/// Returns the last field `packages`, and an object with the fields of other names.
fn split<'v>(
    alloc: Global,
    mut fields: Vec<(&'v str, Value<'v>)>,
) -> Result<(Option<Value<'v>>, Value<'v>), AllocFailed<(&'v str, Value<'v>)>>
    ensures { IfOk result (λ r. Parts (object (members_view fields.entry.items)) (option_map value_view r.0) (value_view r.1)) }
{
    let mut packages = None;
    let mut rest = Vec::new(alloc);
    'fields: while let Some((name, value)) = fields.pop() {
        if lists_packages(name) {
            packages = last(packages, value);
        } else {
            rest.push((name, value))?;
        }
    }
    rest.reverse();
    Ok((packages, Value::Object(rest)))
}

/// Returns the packages of a document, and the document without them. An allocation that fails is the only
/// error.
pub fn parts_of<'v>(
    alloc: Global,
    document: Value<'v>,
) -> Result<(Option<Value<'v>>, Value<'v>), AllocFailed<(&'v str, Value<'v>)>>
    ensures { IfOk result (λ r. Parts (value_view document.entry) (option_map value_view r.0) (value_view r.1)) }
{
    split(alloc, fields_of(alloc, document))
}
