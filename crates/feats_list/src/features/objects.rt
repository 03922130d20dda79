//! The features of a package as JSON objects.
ghost use Rattle.std.specs.Prelude.{◌≡◌, ◌++◌, IfOk, OnOk, codes, map, option_map};
ghost use Rattle.cargo_plans.specs.built_parts.BuiltViews.{is_built_in};
ghost use Rattle.cargo_workspaces.specs.Views.{package_text};
ghost use Rattle.feature_labels.specs.Names.{label_of};
ghost use Rattle.feats_list.specs.features.Objects as spec;
ghost use Rattle.feats_list.specs.features.inner.Listed.{listed_text};
ghost use Rattle.feats_lines.specs.parts.Members.{Appends, texts_member};

use crate::features::listed::{Listed, listed_package};
use cargo_plans::built_parts::BuiltParts;
use cargo_workspaces::Package;
use feats_lines::parts::{begin_line, end_line, write_member, write_optional, write_texts};
use feature_labels::FeatureLabel;
use json::Writer;
use std::alloc::{AllocError, Global};

/// Returns the name of a feature.
fn feature_name(label: FeatureLabel<'_>) -> Option<&str>
    ensures { option_map (λ t. t.now) result ≡ spec.feature_name (label_of label.entry) }
{
    match label {
        FeatureLabel::Named(name) => Some(name),
        FeatureLabel::Base | FeatureLabel::OptionalDependency(_) => None,
    }
}

/// Returns the name of an optional dependency.
fn dependency_name(label: FeatureLabel<'_>) -> Option<&str>
    ensures { option_map (λ t. t.now) result ≡ spec.dependency_name (label_of label.entry) }
{
    match label {
        FeatureLabel::OptionalDependency(name) => Some(name),
        FeatureLabel::Base | FeatureLabel::Named(_) => None,
    }
}

/// Writes the id, the name and the version of `package`.
fn write_package(writer: &mut Writer, package: &Package<'_>) -> Result<(), AllocError>
    ensures { OnOk result (Appends writer.old writer.new (spec.package_members (package_text «package».now))) }
{
    write_member(writer, "package", package.id)?;
    write_member(writer, "name", package.name)?;
    write_member(writer, "version", package.version)
}

/// Writes the sides on which a label is built.
fn write_sides(writer: &mut Writer, target: bool, host: bool) -> Result<(), AllocError>
    ensures { OnOk result (Appends writer.old writer.new (texts_member (codes "sides") (spec.side_words target host))) }
{
    match (target, host) {
        (true, true) => write_texts(writer, "sides", &["target", "host"]),
        (true, false) => write_texts(writer, "sides", &["target"]),
        (false, true) => write_texts(writer, "sides", &["host"]),
        (false, false) => write_texts(writer, "sides", &[]),
    }
}

/// Writes the name of `listed`, on which sides it is built, and its items.
fn write_listed(writer: &mut Writer, listed: &Listed<'_, '_>) -> Result<(), AllocError>
    ensures { OnOk result (Appends writer.old writer.new (spec.listed_members (listed_text listed.now))) }
{
    write_optional(writer, "feature", feature_name(listed.label))?;
    write_optional(writer, "dependency", dependency_name(listed.label))?;
    write_sides(writer, listed.target, listed.host)?;
    write_texts(writer, "items", listed.items)
}

/// Appends the line of `listed`, which is of `package`.
fn push_line(
    text: Vec<u8>,
    package: &Package<'_>,
    listed: &Listed<'_, '_>,
) -> Result<Vec<u8>, AllocError>
    ensures { IfOk result (λ new. new.items ≡ text.items ++ spec.line_of (package_text «package».now) (listed_text listed.now)) }
{
    let mut writer = begin_line(text)?;
    write_package(&mut writer, package)?;
    write_listed(&mut writer, listed)?;
    end_line(writer)
}

/// Returns the lines of `list`, which is of `package`.
fn lines(
    alloc: Global,
    package: &Package<'_>,
    list: &[Listed<'_, '_>],
) -> Result<Vec<u8>, AllocError>
    ensures { IfOk result (λ text. text.items ≡ spec.lines (package_text «package».now) (map listed_text list.now)) }
{
    let mut text = Vec::new(alloc);
    for one in list {
        text = push_line(text, package, one)?;
    }
    Ok(text)
}

/// Returns a line for each feature of `package`, which is package `ix`, and then for each optional dependency: a JSON object with the
/// package's id, name and version, the name of the feature or of the dependency, on which sides it is built, and the items of the feature.
pub fn feature_objects(
    alloc: Global,
    parts: &BuiltParts<'_>,
    ix: usize,
    package: &Package<'_>,
) -> Result<Vec<u8>, AllocError>
    ensures { IfOk result (λ text. text.items ≡ spec.feature_objects (is_built_in parts.now) ix (package_text «package».now)) }
{
    let list = listed_package(alloc, parts, ix, package)?;
    lines(alloc, package, &list)
}
