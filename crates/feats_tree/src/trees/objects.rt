//! Branches as JSON objects.
ghost use Rattle.std.specs.Prelude.{◌≡◌, ◌++◌, IfOk, OnOk, map, option_map};
ghost use Rattle.feats_lines.specs.parts.Members.{Appends};
ghost use Rattle.feats_tree.specs.trees.Objects as spec;
ghost use Rattle.feats_tree.specs.trees.Titles.{part, at_text, detail_text, title_text};

use crate::trees::titles::{At, Detail, Title};
use crate::trees::trees::Branch;
use feats_lines::parts::{
    begin_line, end_line, write_flag, write_member, write_number, write_optional,
};
use json::Writer;
use std::alloc::{AllocError, Global};

/// Writes the feature and the optional dependency that a part is, and its side.
fn write_part(
    writer: &mut Writer,
    feature: Option<&str>,
    dependency: Option<&str>,
    side: &str,
) -> Result<(), AllocError>
    ensures { OnOk result (Appends writer.old writer.new (spec.at_members (part (option_map (λ t. t.now) feature.entry) (option_map (λ t. t.now) dependency.entry) side.now))) }
{
    write_optional(writer, "feature", feature)?;
    write_optional(writer, "dependency", dependency)?;
    write_member(writer, "side", side)
}

/// Writes where a node is.
fn write_at(writer: &mut Writer, at: At<'_>) -> Result<(), AllocError>
    ensures { OnOk result (Appends writer.old writer.new (spec.at_members (at_text at.entry))) }
{
    match at {
        At::Place(name) => write_member(writer, "place", name),
        At::Part {
            feature,
            dependency,
            side,
        } => write_part(writer, feature, dependency, side),
    }
}

/// Writes the members of `detail`.
fn write_detail(writer: &mut Writer, detail: Detail<'_>) -> Result<(), AllocError>
    ensures { OnOk result (Appends writer.old writer.new (spec.detail_members (detail_text detail.entry))) }
{
    write_member(writer, "package", detail.id)?;
    write_member(writer, "name", detail.name)?;
    write_member(writer, "version", detail.version)?;
    write_at(writer, detail.at)
}

/// Writes the members of node `number`; nothing, if `titles` has none.
pub fn write_node(writer: &mut Writer, titles: &[Title<'_>], number: usize) -> Result<(), AllocError>
    ensures { OnOk result (Appends writer.old writer.new (spec.node_members (map title_text titles.now) number)) }
{
    match titles.get(number) {
        Some(title) => write_detail(writer, title.detail),
        None => Ok(()),
    }
}

/// Writes the members of `branch`.
fn write_members(
    writer: &mut Writer,
    titles: &[Title<'_>],
    branch: &Branch,
) -> Result<(), AllocError>
    ensures { OnOk result (Appends writer.old writer.new (spec.members (map title_text titles.now) branch.now)) }
{
    write_number(writer, "depth", branch.depth)?;
    write_node(writer, titles, branch.node)?;
    write_flag(writer, "again", branch.is_again)
}

/// Appends the line of `branch`.
fn push_object(text: Vec<u8>, titles: &[Title<'_>], branch: &Branch) -> Result<Vec<u8>, AllocError>
    ensures { IfOk result (λ new. new.items ≡ text.items ++ spec.object_of (map title_text titles.now) branch.now) }
{
    let mut writer = begin_line(text)?;
    write_members(&mut writer, titles, branch)?;
    end_line(writer)
}

/// Returns a line for each of `branches`: a JSON object with the depth, what `titles` have of the node, and whether its links are shown
/// above.
pub fn branch_objects(
    alloc: Global,
    branches: &[Branch],
    titles: &[Title<'_>],
) -> Result<Vec<u8>, AllocError>
    ensures { IfOk result (λ text. text.items ≡ spec.branch_objects (map title_text titles.now) branches.now) }
{
    let mut text = Vec::new(alloc);
    for branch in branches {
        text = push_object(text, titles, branch)?;
    }
    Ok(text)
}
