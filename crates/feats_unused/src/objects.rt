//! The lines as JSON objects.
ghost use Rattle.std.specs.Prelude.{◌≡◌, ◌++◌, IfOk, OnOk, map, flat_map};
ghost use Rattle.cargo_workspaces.specs.Views.{package_text};
ghost use Rattle.feats_lines.specs.parts.Members.{Appends};
ghost use Rattle.feats_unused.specs.Objects as spec;
ghost use Rattle.feats_unused.specs.Views.{shown_text};

use crate::rows::{kind_of, package_of};
use crate::shown::Shown;
use cargo_workspaces::Package;
use feats_lines::parts::{begin_line, end_line, write_member};
use json::Writer;
use std::alloc::{AllocError, Global};

/// Writes the kind of a line, and the id, the name and the version of its package.
fn write_head(writer: &mut Writer, kind: &str, package: &Package<'_>) -> Result<(), AllocError>
    ensures { OnOk result (Appends writer.old writer.new (spec.head kind.now (package_text «package».now))) }
{
    write_member(writer, "kind", kind)?;
    write_member(writer, "package", package.id)?;
    write_member(writer, "name", package.name)?;
    write_member(writer, "version", package.version)
}

/// Writes the feature and its dead item.
fn write_dead(writer: &mut Writer, feature: &str, item: &str) -> Result<(), AllocError>
    ensures { OnOk result (Appends writer.old writer.new (spec.dead_members feature.now item.now)) }
{
    write_member(writer, "feature", feature)?;
    write_member(writer, "item", item)
}

/// Writes what `shown` says of its package.
fn write_detail(writer: &mut Writer, shown: &Shown<'_, '_>) -> Result<(), AllocError>
    ensures { OnOk result (Appends writer.old writer.new (spec.detail (shown_text shown.now))) }
{
    match shown {
        Shown::Unused { feature, .. } => write_member(writer, "feature", feature),
        Shown::Dead { feature, item, .. } => write_dead(writer, feature, item),
    }
}

/// Writes the members of `shown`.
fn write_members(writer: &mut Writer, shown: &Shown<'_, '_>) -> Result<(), AllocError>
    ensures { OnOk result (Appends writer.old writer.new (spec.members (shown_text shown.now))) }
{
    write_head(writer, kind_of(shown), package_of(shown))?;
    write_detail(writer, shown)
}

/// Appends the line of `shown`.
fn push_line(text: Vec<u8>, shown: &Shown<'_, '_>) -> Result<Vec<u8>, AllocError>
    ensures { IfOk result (λ new. new.items ≡ text.items ++ spec.line_of (shown_text shown.now)) }
{
    let mut writer = begin_line(text)?;
    write_members(&mut writer, shown)?;
    end_line(writer)
}

/// Returns a line for each of `shown`: a JSON object with its kind, the id, name and version of its package, and the unused feature, or
/// the feature and its dead item. Its only error is out of memory.
pub fn unused_objects(alloc: Global, shown: &[Shown<'_, '_>]) -> Result<Vec<u8>, AllocError>
    ensures { IfOk result (λ text. text.items ≡ spec.unused_objects (map shown_text shown.now)) }
{
    let mut text = Vec::new(alloc);
    for one in shown {
        text = push_line(text, one)?;
    }
    Ok(text)
}
