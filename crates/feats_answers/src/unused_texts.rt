//! The text about features that nothing uses, and items that turn nothing on.
ghost use Rattle.std.specs.Prelude.{◌≡◌, IfOk, map};
ghost use Rattle.cargo_workspaces.specs.Views.{package_text};
ghost use Rattle.cargo_workspaces.specs.WorkspaceView.{workspace_text};
ghost use Rattle.feats_answers.specs.UnusedTexts as spec;
ghost use Rattle.feats_unused.specs.Views.{shown_text};

use cargo_workspaces::{Package, Workspace};
use feats_unused::{Shown, lines_of_members, unused_lines, unused_objects};
use feats_words::Format;
use std::alloc::{AllocError, Global};

/// Returns the text of `shown`.
fn text_of(
    alloc: Global,
    format: Format,
    packages: &[Package<'_>],
    shown: &[Shown<'_, '_>],
) -> Result<Vec<u8>, AllocError>
    ensures { IfOk result (λ text. text.items ≡ spec.unused_text format (map package_text packages.now) (map shown_text shown.now)) }
{
    match format {
        Format::Text => Ok(unused_lines(alloc, packages, shown)?.into_bytes()),
        Format::Json => unused_objects(alloc, shown),
    }
}

/// Returns the text about the features of members that no other package uses, and the items that turn nothing on.
pub(crate) fn unused_text(
    alloc: Global,
    format: Format,
    workspace: &Workspace<'_>,
) -> Result<Vec<u8>, AllocError>
    ensures { IfOk result (λ text. spec.IsUnusedText format (workspace_text workspace.now) text.items) }
{
    let shown = lines_of_members(alloc, workspace)?;
    text_of(alloc, format, workspace.packages(), &shown)
}
