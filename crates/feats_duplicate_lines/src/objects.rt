//! The duplicates of a plan, as JSON objects.
ghost use Rattle.std.specs.Prelude.{◌≡◌, ◌++◌, IfOk, OnOk, map, flat_map};
ghost use Rattle.cargo_workspaces.specs.Views.{package_text, texts};
ghost use Rattle.feats_lines.specs.parts.Members.{Appends};
ghost use Rattle.feats_duplicate_lines.specs.Objects as spec;
ghost use Rattle.feats_duplicate_lines.specs.Views.{dependents_text, shown_text};

use crate::manifest_lines::manifest_line;
use crate::rows::{kind_of, package_of};
use crate::shown::{Dependent, Shown};
use cargo_workspaces::Package;
use feats_lines::parts::{begin_line, end_line, write_flag, write_member, write_texts};
use json::Writer;
use std::alloc::{AllocError, Global};

/// Writes the kind of a line, and the id, the name and the version of its package.
fn write_head(writer: &mut Writer, kind: &str, package: &Package<'_>) -> Result<(), AllocError>
    ensures { OnOk result (Appends writer.old writer.new (spec.head kind.now (package_text «package».now))) }
{
    write_member(writer, "kind", kind)?;
    write_member(writer, "package", package.id)?;
    write_member(writer, "name", package.name)?;
    write_member(writer, "version", package.version)
}

/// Writes the place and the features.
fn write_place(writer: &mut Writer, place: &str, features: &[&str]) -> Result<(), AllocError>
    ensures { OnOk result (Appends writer.old writer.new (spec.place_members place.now (texts features.now))) }
{
    write_member(writer, "place", place)?;
    write_texts(writer, "features", features)
}

/// Writes the id of `member`, the place and the features.
fn write_alone(
    writer: &mut Writer,
    member: &Package<'_>,
    place: &str,
    features: &[&str],
) -> Result<(), AllocError>
    ensures { OnOk result (Appends writer.old writer.new (spec.alone_members (package_text member.now) place.now (texts features.now))) }
{
    write_member(writer, "member", member.id)?;
    write_place(writer, place, features)
}

/// Writes the place, the features and the line of a manifest, and whether members agree with it.
fn write_joined(
    alloc: Global,
    writer: &mut Writer,
    package: &Package<'_>,
    place: &str,
    features: &[&str],
    agrees: bool,
) -> Result<(), AllocError>
    ensures { OnOk result (Appends writer.old writer.new (spec.joined_members (package_text «package».now) place.now (texts features.now) agrees)) }
{
    let line = manifest_line(alloc, package, features)?;
    write_place(writer, place, features)?;
    write_member(writer, "line", line.as_str())?;
    write_flag(writer, "agrees", agrees)
}

/// Returns the ids of the packages `dependents`.
fn ids_of<'v>(alloc: Global, dependents: &[Dependent<'_, 'v>]) -> Result<Vec<&'v str>, AllocError>
    ensures { IfOk result (λ ids. texts ids.items ≡ map (λ p. p.id) (dependents_text dependents.now)) }
{
    let mut ids = Vec::with_capacity(alloc, dependents.len())?;
    for dependent in dependents {
        ids.push(dependent.package.id)?;
    }
    Ok(ids)
}

/// Writes the ids of the packages that depend on one of several versions.
fn write_version(
    alloc: Global,
    writer: &mut Writer,
    dependents: &[Dependent<'_, '_>],
) -> Result<(), AllocError>
    ensures { OnOk result (Appends writer.old writer.new (spec.version_members (dependents_text dependents.now))) }
{
    let ids = ids_of(alloc, dependents)?;
    write_texts(writer, "dependents", &ids)
}

/// Writes what `shown` says of its package.
fn write_detail(
    alloc: Global,
    writer: &mut Writer,
    shown: &Shown<'_, '_, '_>,
) -> Result<(), AllocError>
    ensures { OnOk result (Appends writer.old writer.new (spec.detail (shown_text shown.now))) }
{
    match shown {
        Shown::Version { dependents, .. } => write_version(alloc, writer, dependents),
        Shown::InPlace {
            place,
            features,
            ..
        } => write_place(writer, place, features),
        Shown::Alone {
            place,
            member,
            features,
            ..
        } => write_alone(writer, member, place, features),
        Shown::Joined {
            package,
            place,
            features,
            agrees,
        } => write_joined(alloc, writer, package, place, features, *agrees),
        Shown::NotPlanned { message, .. } => write_member(writer, "message", message),
    }
}

/// Writes the members of `shown`.
fn write_members(
    alloc: Global,
    writer: &mut Writer,
    shown: &Shown<'_, '_, '_>,
) -> Result<(), AllocError>
    ensures { OnOk result (Appends writer.old writer.new (spec.members (shown_text shown.now))) }
{
    write_head(writer, kind_of(shown), package_of(shown))?;
    write_detail(alloc, writer, shown)
}

/// Appends the line of `shown`.
fn push_line(alloc: Global, text: Vec<u8>, shown: &Shown<'_, '_, '_>) -> Result<Vec<u8>, AllocError>
    ensures { IfOk result (λ new. new.items ≡ text.items ++ spec.line_of (shown_text shown.now)) }
{
    let mut writer = begin_line(text)?;
    write_members(alloc, &mut writer, shown)?;
    end_line(writer)
}

/// Returns a line for each of `shown`: a JSON object with its kind, the id, name and version of its package, and what is shown of it.
pub fn duplicate_objects(alloc: Global, shown: &[Shown<'_, '_, '_>]) -> Result<Vec<u8>, AllocError>
    ensures { IfOk result (λ text. text.items ≡ spec.duplicate_objects (map shown_text shown.now)) }
{
    let mut text = Vec::new(alloc);
    for one in shown {
        text = push_line(alloc, text, one)?;
    }
    Ok(text)
}
