//! The features of a package as text in columns.
ghost use Rattle.std.specs.Prelude.{◌≡◌, ◌++◌, IfOk, OnOk, map, flat_map, string_bytes};
ghost use Rattle.cargo_plans.specs.built_parts.BuiltViews.{is_built_in};
ghost use Rattle.cargo_workspaces.specs.Views.{package_text, texts};
ghost use Rattle.feature_labels.specs.Names.{label_of, label_text};
ghost use Rattle.feats_list.specs.features.Lines as spec;
ghost use Rattle.feats_list.specs.features.inner.Listed.{listed_text};
ghost use Rattle.feats_lines.specs.parts.Views.{row_text};

use crate::features::listed::{Listed, has_two_sides, listed_package};
use cargo_plans::built_parts::BuiltParts;
use cargo_workspaces::Package;
use feats_lines::parts::{Row, table_of};
use feature_labels::FeatureLabel;
use std::alloc::{AllocError, Global};

/// Returns the text of `label`.
fn label_text(alloc: Global, label: FeatureLabel<'_>) -> Result<String, AllocError>
    ensures { IfOk result (λ text. string_bytes text ≡ label_text (label_of label.entry)) }
{
    match label {
        FeatureLabel::Base => String::from_str(alloc, "[base]"),
        FeatureLabel::Named(name) => String::from_str(alloc, name),
        FeatureLabel::OptionalDependency(name) => {
            let mut text = String::from_str(alloc, "dep:")?;
            text.push_str(name)?;
            Ok(text)
        }
    }
}

/// Returns the word for the sides on which a label is built. `two` is whether its package is built on both sides.
fn on_word(two: bool, target: bool, host: bool) -> &'static str
    ensures { result.now ≡ spec.on_word two target host }
{
    match (two, target, host) {
        (true, true, true) => "on",
        (true, true, false) => "on for target",
        (true, false, true) => "on for host",
        (true, false, false) => "off",
        (false, target, host) => { if target || host { "on" } else { "off" } }
    }
}

/// Appends each of `items`, after a space.
fn push_more(text: &mut String, items: &[&str]) -> Result<(), AllocError>
    ensures { OnOk result (string_bytes text.new ≡ string_bytes text.old ++ flat_map spec.after_space (texts items.now)) }
{
    for item in items {
        text.push_str(" ")?;
        text.push_str(item)?;
    }
    Ok(())
}

/// Returns `items`, with a space between two of them.
fn spaced(alloc: Global, items: &[&str]) -> Result<String, AllocError>
    ensures { IfOk result (λ text. string_bytes text ≡ spec.spaced (texts items.now)) }
{
    match items {
        [] => Ok(String::new(alloc)),
        [first, more @ ..] => {
            let mut text = String::from_str(alloc, first)?;
            push_more(&mut text, more)?;
            Ok(text)
        }
    }
}

/// Returns the row of `listed`. `two` is whether its package is built on both sides.
fn row_of(alloc: Global, two: bool, listed: &Listed<'_, '_>) -> Result<Row, AllocError>
    ensures { IfOk result (λ row. row_text row ≡ spec.row_of two (listed_text listed.now)) }
{
    let first = label_text(alloc, listed.label)?;
    let second = String::from_str(alloc, on_word(two, listed.target, listed.host))?;
    let third = spaced(alloc, listed.items)?;
    Ok(Row {
        first,
        second,
        third,
    })
}

/// Returns the table of `list`. `two` is whether the package is built on both sides.
fn table(alloc: Global, two: bool, list: &[Listed<'_, '_>]) -> Result<String, AllocError>
    ensures { IfOk result (λ text. string_bytes text ≡ spec.table two (map listed_text list.now)) }
{
    let mut rows = Vec::with_capacity(alloc, list.len())?;
    for one in list {
        rows.push(row_of(alloc, two, one)?)?;
    }
    table_of(alloc, &rows)
}

/// Returns a line for each feature of `package`, which is package `ix`, and then for each optional dependency: its name, whether it is
/// built, and the items of the feature. If the package is built on both sides, a line also says on which side.
pub fn feature_lines(
    alloc: Global,
    parts: &BuiltParts<'_>,
    ix: usize,
    package: &Package<'_>,
) -> Result<String, AllocError>
    ensures { IfOk result (λ text. string_bytes text ≡ spec.feature_lines (is_built_in parts.now) ix (package_text «package».now)) }
{
    let list = listed_package(alloc, parts, ix, package)?;
    table(alloc, has_two_sides(parts, ix), &list)
}
