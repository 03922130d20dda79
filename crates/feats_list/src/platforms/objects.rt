//! The specs as JSON objects.
ghost use Rattle.std.specs.Prelude.{◌≡◌, ◌++◌, IfOk, OnOk, map};
ghost use Rattle.feats_lines.specs.parts.Members.{Appends};
ghost use Rattle.plan_rows.specs.platforms.Views.{declared_text};
ghost use Rattle.feats_list.specs.platforms.Objects as spec;
ghost use Rattle.feats_list.specs.platforms.Objects.{IsSpecObjects};
ghost use Rattle.feats_list.specs.platforms.Views.{place_text};
ghost use Rattle.feats_list.specs.platforms.inner.Listed.{listed_text};

use crate::platforms::listed::{Listed, listed_specs};
use crate::platforms::places::NamedPlatform;
use feats_lines::parts::{begin_line, end_line, write_member, write_number, write_texts};
use json::Writer;
use plan_rows::Platform;
use plan_rows::platforms::DeclaredSpec;
use std::alloc::{AllocError, Global};

/// Writes the members of `listed`.
fn write_members(writer: &mut Writer, listed: &Listed<'_, '_>) -> Result<(), AllocError>
    ensures { OnOk result (Appends writer.old writer.new (spec.members (listed_text listed.now))) }
{
    write_member(writer, "spec", listed.spec)?;
    write_number(writer, "declarations", listed.count)?;
    write_texts(writer, "holds", &listed.holds)?;
    write_texts(writer, "fails", &listed.fails)
}

/// Appends the line of `listed`.
fn push_line(text: Vec<u8>, listed: &Listed<'_, '_>) -> Result<Vec<u8>, AllocError>
    ensures { IfOk result (λ new. new.items ≡ text.items ++ spec.line_of (listed_text listed.now)) }
{
    let mut writer = begin_line(text)?;
    write_members(&mut writer, listed)?;
    end_line(writer)
}

/// Returns the lines of `list`.
fn lines(alloc: Global, list: &[Listed<'_, '_>]) -> Result<Vec<u8>, AllocError>
    ensures { IfOk result (λ text. text.items ≡ spec.lines (map listed_text list.now)) }
{
    let mut text = Vec::new(alloc);
    for one in list {
        text = push_line(text, one)?;
    }
    Ok(text)
}

/// Returns a line for each of `specs`, once each and in the order of their bytes: a JSON object with the spec, the number of
/// declarations that name it, the names of those of `places` where it holds, and of those where it doesn't.
pub fn spec_objects<P: Platform>(
    alloc: Global,
    specs: &[DeclaredSpec<'_>],
    places: &[NamedPlatform<'_, P>],
) -> Result<Vec<u8>, AllocError>
    ensures { IfOk result (λ text. IsSpecObjects (map declared_text specs.now) (map (place_text P.holds) places.now) text.items) }
{
    let list = listed_specs(alloc, specs, places)?;
    lines(alloc, &list)
}
