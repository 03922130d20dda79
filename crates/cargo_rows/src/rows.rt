//! Writes rows as text.
ghost use Rattle.std.specs.Prelude.{◌≡◌, ◌++◌, [], ◌∷◌, codes, map, option_map, IfOk, OnOk, string_bytes};
ghost use Rattle.cargo_json.specs.Faults.{Gives};
ghost use Rattle.cargo_rows.specs.Rows as spec;
ghost use Rattle.cargo_workspaces.specs.Views.{feature_text};
ghost use Rattle.workspace_documents.specs.Views.{text_view, dependency_view};
ghost use Rattle.cargo_rows.specs.inner.Views.{after};

use cargo_json::DocumentFault;
use cargo_workspaces::{Feature, Kind};
use std::alloc::{AllocError, Global};
use workspace_documents::{Dependency, Package};

/// Returns whether one of `bytes` is an ASCII control character.
fn has_control(bytes: &[u8]) -> bool
    ensures { result ≡ spec.has_control bytes.now }
{
    for byte in bytes {
        if byte.is_ascii_control() {
            return true;
        }
    }
    false
}

/// Checks that no text of `fields` has a control character. Returns `Control` with the first that has one.
fn check_fields(alloc: Global, fields: &[&str]) -> Result<(), DocumentFault>
    ensures { Gives (λ _. tt) result (spec.allowed (map (λ s. s.now) fields.now)) }
{
    for text in fields {
        if has_control(text.as_bytes()) {
            let text = String::from_str(alloc, text)?;
            return Err(DocumentFault::Control { text });
        }
    }
    Ok(())
}

/// Appends a tab and the text for each of `fields`.
fn push_fields(rows: &mut String, fields: &[&str]) -> Result<(), AllocError>
    ensures { OnOk result (string_bytes rows.new ≡ string_bytes rows.old ++ spec.fields_text (map (λ s. s.now) fields.now)) }
{
    for text in fields {
        rows.push_str("\t")?;
        rows.push_str(text)?;
    }
    Ok(())
}

/// Appends a row: `word`, the `fields` and a line feed. Returns `Control` if a field has a control character.
#[tactic(auto, unfolding(crate::specs::Rows::row))]
fn push_row(
    alloc: Global,
    rows: &mut String,
    word: &str,
    fields: &[&str],
) -> Result<(), DocumentFault>
    ensures { Gives (λ _. string_bytes rows.new) result (after (string_bytes rows.old) (spec.row word.now (map text_view fields.now))) }
{
    check_fields(alloc, fields)?;
    rows.push_str(word)?;
    push_fields(rows, fields)?;
    rows.push_str("\n")?;
    Ok(())
}

/// Appends the row of `package`. Returns `Control` if its id has a control character.
pub(crate) fn push_package(
    alloc: Global,
    rows: &mut String,
    package: &Package<'_>,
    is_member: bool,
) -> Result<(), DocumentFault>
    ensures { Gives (λ _. string_bytes rows.new) result (after (string_bytes rows.old) (spec.row (codes "package") («package».now.id.now ∷ spec.member_word is_member ∷ []))) }
{
    let place = if is_member { "workspace" } else { "external" };
    push_row(alloc, rows, "package", &[package.id, place])
}

/// Returns the fields of the row of `feature`: its name and its items.
fn feature_fields<'v>(alloc: Global, feature: &Feature<'v>) -> Result<Vec<&'v str>, AllocError>
    ensures { IfOk result (λ fields. map (λ s. s.now) fields.items ≡ spec.feature_fields (feature_text feature.now)) }
{
    let mut fields = Vec::new(alloc);
    fields.push(feature.name)?;
    fields.extend_from_slice(&feature.items)?;
    Ok(fields)
}

/// Appends the rows of `features`. Returns `Control` if a name or an item has a control character.
pub(crate) fn push_features(
    alloc: Global,
    rows: &mut String,
    features: &[Feature<'_>],
) -> Result<(), DocumentFault>
    ensures { Gives (λ _. string_bytes rows.new) result (after (string_bytes rows.old) (spec.feature_rows (map feature_text features.now))) }
{
    for feature in features {
        let fields = feature_fields(alloc, feature)?;
        push_row(alloc, rows, "feature", &fields)?;
    }
    Ok(())
}

/// Returns the word for `kind` in a row.
fn kind_word(kind: Kind) -> &'static str
    ensures { result.now ≡ spec.kind_word kind }
{
    match kind {
        Kind::Normal => "normal",
        Kind::Build => "build",
        Kind::Development => "dev",
    }
}

/// Returns the text of `platform`, or `*` for every platform.
fn platform_text<'v>(platform: Option<&'v str>) -> &'v str
    ensures { result.now ≡ spec.platform_text (option_map text_view platform.entry) }
{
    match platform {
        Some(platform) => platform,
        None => "*",
    }
}

/// Returns `optional` if `is_optional`, otherwise `required`.
fn need_word(is_optional: bool) -> &'static str
    ensures { result.now ≡ spec.need_word is_optional }
{
    if is_optional { "optional" } else { "required" }
}

/// Returns `default` if `has_default_features`, otherwise `nodefault`.
fn defaults_word(has_default_features: bool) -> &'static str
    ensures { result.now ≡ spec.defaults_word has_default_features }
{
    if has_default_features {
        "default"
    } else {
        "nodefault"
    }
}

/// Returns the fields of the row of `dependency`, in the order of the row file's format.
fn dependency_fields<'v>(
    alloc: Global,
    dependency: &Dependency<'_, 'v>,
) -> Result<Vec<&'v str>, AllocError>
    ensures { IfOk result (λ fields. map (λ s. s.now) fields.items ≡ spec.dependency_fields (dependency_view dependency.now)) }
{
    let declaration = dependency.declaration;
    let mut fields = Vec::new(alloc);
    fields.push(dependency.name())?;
    fields.push(dependency.target.id)?;
    fields.push(kind_word(declaration.kind))?;
    fields.push(need_word(declaration.is_optional))?;
    fields.push(platform_text(declaration.platform))?;
    fields.push(defaults_word(declaration.has_default_features))?;
    fields.extend_from_slice(&declaration.features)?;
    Ok(fields)
}

/// Appends the rows of `dependencies`. Returns `Control` if a field has a control character.
pub(crate) fn push_dependencies(
    alloc: Global,
    rows: &mut String,
    dependencies: &[Dependency<'_, '_>],
) -> Result<(), DocumentFault>
    ensures { Gives (λ _. string_bytes rows.new) result (after (string_bytes rows.old) (spec.dependency_rows (map dependency_view dependencies.now))) }
{
    for dependency in dependencies {
        let fields = dependency_fields(alloc, dependency)?;
        push_row(alloc, rows, "dep", &fields)?;
    }
    Ok(())
}
