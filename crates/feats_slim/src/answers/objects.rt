//! Edits by which a build is smaller, as JSON objects.
ghost use Rattle.std.specs.Prelude.{◌≡◌, ◌++◌, IfOk, OnOk, codes, map, flat_map, option_map};
ghost use Rattle.cargo_workspaces.specs.Views.{declaration_text, package_text};
ghost use Rattle.feats_lines.specs.Kinds.{kind_word as word_of};
ghost use Rattle.feats_lines.specs.parts.Members.{Appends, text_member};
ghost use Rattle.feats_slim.specs.edits.SlimViews.{slim_text};
ghost use Rattle.cargo_manifests.specs.EditViews.{without_text};
ghost use Rattle.feats_slim.specs.answers.Objects as spec;
ghost use Rattle.feats_slim.specs.answers.Views.{shown_place_text, shown_text};

use crate::answers::shown::{Shown, ShownPlace, all_shown};
use crate::edits::{Slim, Without};
use cargo_workspaces::{Declaration, Kind, Package};
use feats_lines::kind_word;
use feats_lines::parts::{begin_line, end_line, write_member, write_number, write_optional};
use json::Writer;
use std::alloc::{AllocError, Global};

/// Writes `kind`, the kind of a declaration.
fn write_kind(writer: &mut Writer, kind: Kind) -> Result<(), AllocError>
    ensures { OnOk result (Appends writer.old writer.new (text_member (codes "kind") (word_of kind))) }
{
    write_member(writer, "kind", kind_word(kind))
}

/// Writes `declaration` of `package`.
fn write_declared(
    writer: &mut Writer,
    package: &Package<'_>,
    declaration: &Declaration<'_>,
) -> Result<(), AllocError>
    ensures { OnOk result (Appends writer.old writer.new (spec.declared_members (package_text «package».now) (declaration_text declaration.now))) }
{
    write_member(writer, "package", package.id)?;
    write_member(writer, "dependency", declaration.name)?;
    write_kind(writer, declaration.kind)?;
    write_optional(writer, "platform", declaration.platform)
}

/// Writes the workspace's entry `name`.
fn write_inherited(writer: &mut Writer, name: &str) -> Result<(), AllocError>
    ensures { OnOk result (Appends writer.old writer.new (spec.inherited_members name.now)) }
{
    write_optional(writer, "package", None)?;
    write_member(writer, "dependency", name)?;
    write_optional(writer, "kind", None)?;
    write_optional(writer, "platform", None)
}

/// Writes `place`, which an edit changes.
fn write_place(writer: &mut Writer, place: ShownPlace<'_, '_>) -> Result<(), AllocError>
    ensures { OnOk result (Appends writer.old writer.new (spec.place_members (shown_place_text place.entry))) }
{
    match place {
        ShownPlace::Declared {
            package,
            declaration,
        } => write_declared(writer, package, declaration),
        ShownPlace::Inherited(name) => write_inherited(writer, name),
    }
}

/// Writes `word`, which says what an edit takes out, and `feature`, if there is one.
fn write_out(writer: &mut Writer, word: &str, feature: Option<&str>) -> Result<(), AllocError>
    ensures { OnOk result (Appends writer.old writer.new (spec.out_members word.now (option_map (λ t. t.now) feature.entry))) }
{
    write_member(writer, "without", word)?;
    write_optional(writer, "feature", feature)
}

/// Writes `without`.
fn write_without(writer: &mut Writer, without: Without<'_>) -> Result<(), AllocError>
    ensures { OnOk result (Appends writer.old writer.new (spec.without_members (without_text without.entry))) }
{
    match without {
        Without::Defaults => write_out(writer, "defaults", None),
        Without::Feature(name) => write_out(writer, "feature", Some(name)),
    }
}

/// Writes the numbers `packages` and `features`.
fn write_numbers(writer: &mut Writer, packages: usize, features: usize) -> Result<(), AllocError>
    ensures { OnOk result (Appends writer.old writer.new (spec.number_members packages features)) }
{
    write_number(writer, "lost-packages", packages)?;
    write_number(writer, "lost-features", features)
}

/// Writes the members of `shown`.
fn write_members(writer: &mut Writer, shown: &Shown<'_, '_>) -> Result<(), AllocError>
    ensures { OnOk result (Appends writer.old writer.new (spec.members (shown_text shown.now))) }
{
    write_place(writer, shown.place)?;
    write_without(writer, shown.without)?;
    write_numbers(writer, shown.packages, shown.features)
}

/// Appends the line of `shown`.
fn push_line(text: Vec<u8>, shown: &Shown<'_, '_>) -> Result<Vec<u8>, AllocError>
    ensures { IfOk result (λ new. new.items ≡ text.items ++ spec.line_of (shown_text shown.now)) }
{
    let mut writer = begin_line(text)?;
    write_members(&mut writer, shown)?;
    end_line(writer)
}

/// Returns a line for each of `shown`.
fn objects_of(alloc: Global, shown: &[Shown<'_, '_>]) -> Result<Vec<u8>, AllocError>
    ensures { IfOk result (λ text. text.items ≡ flat_map spec.line_of (map shown_text shown.now)) }
{
    let mut text = Vec::new(alloc);
    for one in shown {
        text = push_line(text, one)?;
    }
    Ok(text)
}

/// Returns a line for each of `slims`: a JSON object with the package and the declaration, or with the workspace's entry. It also has what
/// the edit takes out, and the numbers of packages and features that fall away. `packages` are those of the workspace; edits of
/// declarations that they don't have are left out.
pub fn slim_objects<'u>(
    alloc: Global,
    packages: &'u [Package<'_>],
    slims: &[Slim<'u>],
) -> Result<Vec<u8>, AllocError>
    ensures { IfOk result (λ text. text.items ≡ spec.slim_objects (map package_text packages.now) (map slim_text slims.now)) }
{
    let shown = all_shown(alloc, packages, slims)?;
    objects_of(alloc, &shown)
}
