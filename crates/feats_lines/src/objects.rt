//! A plan as JSON objects.
ghost use Rattle.std.specs.Prelude.{◌≡◌, ◌++◌, IfOk, OnOk, map};
ghost use Rattle.json.specs.Token.{string};
ghost use Rattle.feats_lines.specs.Objects as spec;
ghost use Rattle.cargo_workspaces.specs.Views.{texts};
ghost use Rattle.feats_lines.specs.Views.{shown_text};
ghost use Rattle.feats_lines.specs.parts.Members.{Appends};

use crate::shown::Shown;
use json::Writer;
use std::alloc::{AllocError, Global};

/// Writes a member whose value is a string.
fn write_member(writer: &mut Writer, name: &str, value: &str) -> Result<(), AllocError>
    ensures { OnOk result (Appends writer.old writer.new (spec.member name.now value.now)) }
{
    writer.key(name)?;
    writer.string(value)
}

/// Writes the place of `unit`, and the id, the name and the version of its package.
fn write_head(writer: &mut Writer, unit: &Shown<'_, '_, '_>) -> Result<(), AllocError>
    ensures { OnOk result (Appends writer.old writer.new (spec.head_tokens (shown_text unit.now))) }
{
    write_member(writer, "place", unit.place)?;
    write_member(writer, "package", unit.package.id)?;
    write_member(writer, "name", unit.package.name)?;
    write_member(writer, "version", unit.package.version)
}

/// Writes each of `features` as a string.
fn write_texts(writer: &mut Writer, features: &[&str]) -> Result<(), AllocError>
    ensures { OnOk result (Appends writer.old writer.new (map string (texts features.now))) }
{
    for feature in features {
        writer.string(feature)?;
    }
    Ok(())
}

/// Writes the member with the features.
fn write_features(writer: &mut Writer, features: &[&str]) -> Result<(), AllocError>
    ensures { OnOk result (Appends writer.old writer.new (spec.feature_tokens (texts features.now))) }
{
    writer.key("features")?;
    writer.begin_array()?;
    write_texts(writer, features)?;
    writer.end_array()
}

/// Writes the object of `unit`.
fn write_object(writer: &mut Writer, unit: &Shown<'_, '_, '_>) -> Result<(), AllocError>
    ensures { OnOk result (Appends writer.old writer.new (spec.object_of (shown_text unit.now))) }
{
    writer.begin_object()?;
    write_head(writer, unit)?;
    write_features(writer, unit.features)?;
    writer.end_object()
}

/// Appends the object of `unit`, and a line feed.
fn push_object(text: Vec<u8>, unit: &Shown<'_, '_, '_>) -> Result<Vec<u8>, AllocError>
    ensures { IfOk result (λ new. new.items ≡ text.items ++ spec.object_line (shown_text unit.now)) }
{
    let mut writer = Writer::new(text);
    write_object(&mut writer, unit)?;
    let mut text = writer.into_inner();
    text.push(b'\n')?;
    Ok(text)
}

/// Returns a line for each of `units`: a JSON object with its place, the id, name and version of its package, and its features.
pub fn objects_of(alloc: Global, units: &[Shown<'_, '_, '_>]) -> Result<Vec<u8>, AllocError>
    ensures { IfOk result (λ text. text.items ≡ spec.plan_objects (map shown_text units.now)) }
{
    let mut text = Vec::new(alloc);
    for unit in units {
        text = push_object(text, unit)?;
    }
    Ok(text)
}
