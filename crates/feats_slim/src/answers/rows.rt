//! The rows of the table of edits.
ghost use Rattle.std.specs.Prelude.{◌≡◌, ◌++◌, ◌-◌, IfOk, OnOk, codes, length, option_map, replicate, string_bytes};
ghost use Rattle.std.specs.Fmt.{decimal};
ghost use Rattle.cargo_workspaces.specs.Views.{declaration_text, package_text};
ghost use Rattle.feats_lines.specs.parts.Views.{row_text};
ghost use Rattle.cargo_manifests.specs.EditViews.{without_text};
ghost use Rattle.feats_slim.specs.answers.Lines as spec;
ghost use Rattle.feats_slim.specs.answers.Views.{shown_text};

use crate::answers::shown::{Shown, ShownPlace};
use crate::edits::Without;
use cargo_workspaces::{Declaration, Kind, Package};
use feats_lines::parts::Row;
use std::alloc::{AllocError, Global};

/// Returns the decimal text of `number`.
fn decimal_text(alloc: Global, number: usize) -> Result<String, AllocError>
    ensures { IfOk result (λ text. string_bytes text ≡ decimal number) }
{
    format!(in alloc; "{number}")
}

/// Appends the spaces before `digits` in a column of eight bytes.
fn push_spaces(text: &mut String, digits: &str) -> Result<(), AllocError>
    ensures { OnOk result (string_bytes text.new ≡ string_bytes text.old ++ replicate (8 - length digits.now) 32) }
{
    for _column in digits.len()..8 {
        text.push_str(" ")?;
    }
    Ok(())
}

/// Returns `digits` at the right of a column of eight bytes.
fn at_right(alloc: Global, digits: &str) -> Result<String, AllocError>
    ensures { IfOk result (λ text. string_bytes text ≡ spec.at_right digits.now) }
{
    let mut text = String::new(alloc);
    push_spaces(&mut text, digits)?;
    text.push_str(digits)?;
    Ok(text)
}

/// Returns `number` at the right of its column.
fn number_cell(alloc: Global, number: usize) -> Result<String, AllocError>
    ensures { IfOk result (λ text. string_bytes text ≡ spec.number_cell number) }
{
    let digits = decimal_text(alloc, number)?;
    at_right(alloc, digits.as_str())
}

/// Returns the words for a declaration of kind `kind`.
fn kind_words(kind: Kind) -> &'static str
    ensures { result.now ≡ spec.kind_words kind }
{
    match kind {
        Kind::Normal => "",
        Kind::Build => " (build)",
        Kind::Development => " (dev)",
    }
}

/// Appends the words for `platform`, the platform spec of a declaration, if it has one.
fn push_platform(text: &mut String, platform: Option<&str>) -> Result<(), AllocError>
    ensures { OnOk result (string_bytes text.new ≡ string_bytes text.old ++ spec.platform_words (option_map (λ t. t.now) platform.entry)) }
{
    match platform {
        Some(spec) => {
            text.push_str(" for ")?;
            text.push_str(spec)
        }
        None => Ok(()),
    }
}

/// Appends `name` between backticks.
fn push_quoted(text: &mut String, name: &str) -> Result<(), AllocError>
    ensures { OnOk result (string_bytes text.new ≡ string_bytes text.old ++ spec.quoted name.now) }
{
    text.push_str("`")?;
    text.push_str(name)?;
    text.push_str("`")
}

/// Appends the words for the feature `name`.
fn push_feature(text: &mut String, name: &str) -> Result<(), AllocError>
    ensures { OnOk result (string_bytes text.new ≡ string_bytes text.old ++ (codes " without feature " ++ spec.quoted name.now)) }
{
    text.push_str(" without feature ")?;
    push_quoted(text, name)
}

/// Appends the words for `without`.
fn push_without(text: &mut String, without: Without<'_>) -> Result<(), AllocError>
    ensures { OnOk result (string_bytes text.new ≡ string_bytes text.old ++ spec.without_words (without_text without.entry)) }
{
    match without {
        Without::Defaults => text.push_str(" without default features"),
        Without::Feature(name) => push_feature(text, name),
    }
}

/// Returns the words for `declaration` of `package`.
fn declared_words(
    alloc: Global,
    package: &Package<'_>,
    declaration: &Declaration<'_>,
) -> Result<String, AllocError>
    ensures { IfOk result (λ text. string_bytes text ≡ spec.declared_words (package_text «package».now) (declaration_text declaration.now)) }
{
    let mut text = String::from_str(alloc, package.name)?;
    text.push_str(": ")?;
    text.push_str(declaration.name)?;
    text.push_str(kind_words(declaration.kind))?;
    push_platform(&mut text, declaration.platform)?;
    Ok(text)
}

/// Returns the words for an edit of `declaration` of `package`.
fn declared_edit(
    alloc: Global,
    package: &Package<'_>,
    declaration: &Declaration<'_>,
    without: Without<'_>,
) -> Result<String, AllocError>
    ensures { IfOk result (λ text. string_bytes text ≡ spec.declared_words (package_text «package».now) (declaration_text declaration.now) ++ spec.without_words (without_text without.entry)) }
{
    let mut text = declared_words(alloc, package, declaration)?;
    push_without(&mut text, without)?;
    Ok(text)
}

/// Returns the words for an edit of the workspace's entry `name`.
fn inherited_edit(alloc: Global, name: &str, without: Without<'_>) -> Result<String, AllocError>
    ensures { IfOk result (λ text. string_bytes text ≡ spec.inherited_words name.now (without_text without.entry)) }
{
    let mut text = String::from_str(alloc, "[workspace.dependencies]: ")?;
    text.push_str(name)?;
    push_without(&mut text, without)?;
    text.push_str(", for all members that inherit it")?;
    Ok(text)
}

/// Returns the words for the edit of `shown`.
fn edit_words(alloc: Global, shown: &Shown<'_, '_>) -> Result<String, AllocError>
    ensures { IfOk result (λ text. string_bytes text ≡ spec.edit_words (shown_text shown.now).place (shown_text shown.now).without) }
{
    match shown.place {
        ShownPlace::Declared {
            package,
            declaration,
        } => declared_edit(alloc, package, declaration, shown.without),
        ShownPlace::Inherited(name) => inherited_edit(alloc, name, shown.without),
    }
}

/// Returns the row of `shown`.
pub(crate) fn row_of(alloc: Global, shown: &Shown<'_, '_>) -> Result<Row, AllocError>
    ensures { IfOk result (λ row. row_text row ≡ spec.row_of (shown_text shown.now)) }
{
    let packages = number_cell(alloc, shown.packages)?;
    let features = number_cell(alloc, shown.features)?;
    Ok(Row {
        first: packages,
        second: features,
        third: edit_words(alloc, shown)?,
    })
}

/// Returns the row of the titles.
pub(crate) fn title_row(alloc: Global) -> Result<Row, AllocError>
    ensures { IfOk result (λ row. row_text row ≡ spec.titles) }
{
    let packages = String::from_str(alloc, "packages")?;
    let features = String::from_str(alloc, "features")?;
    Ok(Row {
        first: packages,
        second: features,
        third: String::from_str(alloc, "edit of a declaration")?,
    })
}
