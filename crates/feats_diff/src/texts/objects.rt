//! The differences as JSON objects.
ghost use Rattle.std.specs.Prelude.{◌≡◌, ◌++◌, IfOk, OnOk, flat_map, map};
ghost use Rattle.cargo_workspaces.specs.Views.{package_text, texts};
ghost use Rattle.feats_diff.specs.texts.Objects as spec;
ghost use Rattle.feats_diff.specs.texts.Views.{difference_text, turned_text};
ghost use Rattle.feats_lines.specs.parts.Members.{Appends};
ghost use Rattle.feats_lines.specs.Views.{shown_text};

use crate::texts::shown::{Difference, Turned};
use crate::texts::titles::is_same;
use cargo_workspaces::Package;
use feats_lines::Shown;
use feats_lines::parts::{begin_line, end_line, write_member, write_texts};
use json::Writer;
use std::alloc::{AllocError, Global};

/// Writes the kind of the difference, and the place and the package of `shown`.
fn write_head(writer: &mut Writer, kind: &str, shown: &Shown<'_, '_, '_>) -> Result<(), AllocError>
    ensures { OnOk result (Appends writer.old writer.new (spec.head kind.now (shown_text shown.now))) }
{
    write_member(writer, "difference", kind)?;
    write_member(writer, "place", shown.place)?;
    write_member(writer, "package", shown.package.id)?;
    write_member(writer, "name", shown.package.name)?;
    write_member(writer, "version", shown.package.version)
}

/// Writes the package as it was.
fn write_old(writer: &mut Writer, old: &Package<'_>) -> Result<(), AllocError>
    ensures { OnOk result (Appends writer.old writer.new (spec.old_members (package_text old.now))) }
{
    write_member(writer, "old-package", old.id)?;
    write_member(writer, "old-version", old.version)
}

/// Returns the names of `comes`.
fn names_of<'w>(alloc: Global, comes: &[Turned<'w>]) -> Result<Vec<&'w str>, AllocError>
    ensures { IfOk result (λ names. texts names.items ≡ map (λ t. t.name) (map turned_text comes.now)) }
{
    let mut names = Vec::with_capacity(alloc, comes.len())?;
    for one in comes {
        names.push(one.name)?;
    }
    Ok(names)
}

/// Returns the last step of the `why` of each of `comes`.
fn whys_of<'t>(alloc: Global, comes: &'t [Turned<'_>]) -> Result<Vec<&'t str>, AllocError>
    ensures { IfOk result (λ whys. texts whys.items ≡ map (λ t. t.why) (map turned_text comes.now)) }
{
    let mut whys = Vec::with_capacity(alloc, comes.len())?;
    for one in comes {
        whys.push(one.why.as_str())?;
    }
    Ok(whys)
}

/// Writes the features that come, with the last step of each `why`, and those that go.
fn write_features(
    alloc: Global,
    writer: &mut Writer,
    comes: &[Turned<'_>],
    goes: &[&str],
) -> Result<(), AllocError>
    ensures { OnOk result (Appends writer.old writer.new (spec.feature_members (map turned_text comes.now) (texts goes.now))) }
{
    let names = names_of(alloc, comes)?;
    let whys = whys_of(alloc, comes)?;
    write_texts(writer, "comes", names.as_slice())?;
    write_texts(writer, "whys", whys.as_slice())?;
    write_texts(writer, "goes", goes)
}

/// Writes the members of a package that comes.
fn write_new(writer: &mut Writer, new: &Shown<'_, '_, '_>, why: &str) -> Result<(), AllocError>
    ensures { OnOk result (Appends writer.old writer.new (spec.new_members (shown_text new.now) why.now)) }
{
    write_head(writer, "comes", new)?;
    write_texts(writer, "features", new.features)?;
    write_member(writer, "why", why)
}

/// Writes the members of a package that goes.
fn write_gone(writer: &mut Writer, old: &Shown<'_, '_, '_>) -> Result<(), AllocError>
    ensures { OnOk result (Appends writer.old writer.new (spec.gone_members (shown_text old.now))) }
{
    write_head(writer, "goes", old)?;
    write_texts(writer, "features", old.features)
}

/// Returns the kind of a difference between `old` and `new`.
fn kind_of(old: &Package<'_>, new: &Package<'_>) -> &'static str
    ensures { result.now ≡ spec.kind_of (package_text old.now) (package_text new.now) }
{
    if is_same(old, new) {
        "features"
    } else {
        "version"
    }
}

/// Writes the members of a package that changes.
fn write_changed(
    alloc: Global,
    writer: &mut Writer,
    old: &Shown<'_, '_, '_>,
    new: &Shown<'_, '_, '_>,
    comes: &[Turned<'_>],
    goes: &[&str],
) -> Result<(), AllocError>
    ensures { OnOk result (Appends writer.old writer.new (spec.changed_members (shown_text old.now) (shown_text new.now) (map turned_text comes.now) (texts goes.now))) }
{
    write_head(writer, kind_of(old.package, new.package), new)?;
    write_old(writer, old.package)?;
    write_texts(writer, "features", new.features)?;
    write_features(alloc, writer, comes, goes)
}

/// Writes the members of `difference`.
fn write_members(
    alloc: Global,
    writer: &mut Writer,
    difference: &Difference<'_, '_, '_>,
) -> Result<(), AllocError>
    ensures { OnOk result (Appends writer.old writer.new (spec.members (difference_text difference.now))) }
{
    match difference {
        Difference::Comes { new, why } => write_new(writer, new, why.as_str()),
        Difference::Goes { old } => write_gone(writer, old),
        Difference::Changes {
            old,
            new,
            comes,
            goes,
        } => write_changed(alloc, writer, old, new, comes, goes),
    }
}

/// Appends the line of `difference`.
fn push_line(
    alloc: Global,
    text: Vec<u8>,
    difference: &Difference<'_, '_, '_>,
) -> Result<Vec<u8>, AllocError>
    ensures { IfOk result (λ new. new.items ≡ text.items ++ spec.line_of (difference_text difference.now)) }
{
    let mut writer = begin_line(text)?;
    write_members(alloc, &mut writer, difference)?;
    end_line(writer)
}

/// Returns a line for each of `shown`: a JSON object with the kind of the difference, the place, the package, its features, and those
/// that come, with the last step of each `why`, and go.
pub fn difference_objects(
    alloc: Global,
    shown: &[Difference<'_, '_, '_>],
) -> Result<Vec<u8>, AllocError>
    ensures { IfOk result (λ text. text.items ≡ spec.difference_objects (map difference_text shown.now)) }
{
    let mut text = Vec::new(alloc);
    for difference in shown {
        text = push_line(alloc, text, difference)?;
    }
    Ok(text)
}
