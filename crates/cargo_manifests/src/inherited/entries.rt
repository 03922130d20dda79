//! What an entry for a dependency says.
ghost use Rattle.std.specs.Prelude.{◌≡◌, option_map};
ghost use Rattle.toml.specs.View.{items_view, view};
ghost use Rattle.cargo_manifests.specs.inherited.Entries as spec;

use toml::Value;

/// Returns the value of `key` in `table`, or that of its older name `older`.
pub(crate) fn value_of<'m>(table: &'m Value, key: &str, older: &str) -> Option<&'m Value>
    ensures { option_map (λ v. view v.now) result ≡ spec.value_of key.now older.now (view table.now) }
{
    match table.get(key) {
        Some(value) => Some(value),
        None => table.get(older),
    }
}

/// Returns whether `entry` inherits its dependency: it has `workspace = true`.
pub(crate) fn is_inherited(entry: &Value) -> bool
    ensures { result ≡ spec.is_inherited (view entry.now) }
{
    match entry.get("workspace") {
        Some(flag) => flag.as_bool() == Some(true),
        None => false,
    }
}

/// Returns the value of `default-features` in `entry`, if it has one.
pub fn default_features(entry: &Value) -> Option<bool>
    ensures { result ≡ spec.default_features (view entry.now) }
{
    value_of(entry, "default-features", "default_features")?.as_bool()
}

/// Returns whether `value` is the text `text`.
pub(crate) fn is_text(value: &Value, text: &str) -> bool
    ensures { result ≡ spec.is_text text.now (view value.now) }
{
    match value.as_str() {
        Some(other) => text == other,
        None => false,
    }
}

/// Returns whether one of `items` is the text `text`.
fn has_text(items: &[Value], text: &str) -> bool
    ensures { result ≡ spec.has_text text.now (items_view items.now) }
{
    for value in items {
        if is_text(value, text) {
            return true;
        }
    }
    false
}

/// Returns whether `entry` lists `feature`.
pub fn lists(entry: &Value, feature: &str) -> bool
    ensures { result ≡ spec.lists feature.now (view entry.now) }
{
    match entry.get("features") {
        Some(value) => match value.as_array() {
            Some(items) => has_text(items, feature),
            None => false,
        },
        None => false,
    }
}
