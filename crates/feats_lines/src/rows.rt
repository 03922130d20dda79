//! The rows of the table that shows a plan.
ghost use Rattle.std.specs.Prelude.{◌≡◌, List, IfOk, map};
ghost use Rattle.cargo_workspaces.specs.Workspaces.{Text};
ghost use Rattle.cargo_workspaces.specs.WorkspaceView.{workspace_text};
ghost use Rattle.feats_lines.specs.Lines as spec;
ghost use Rattle.feats_lines.specs.Repeats.{HasRepeated};
ghost use Rattle.feats_lines.specs.Views.{shown_text};
ghost use Rattle.feats_lines.specs.inner.Rows.{row_text};

use crate::labels::label_of;
use crate::names::{names_of, repeated_in};
use crate::shown::Shown;
use cargo_workspaces::Workspace;
use std::alloc::{AllocError, Global};
use std::collections::BTreeSet;

/// A row of the table: the texts of its columns.
#[derive(Drop)]
pub(crate) struct Row<'u, 'w> {
    pub(crate) place: &'u str,
    pub(crate) label: String,
    pub(crate) features: &'u [&'w str],
}

/// Returns the rows of `units`, where the set has the names that several packages have.
fn rows_by<'u, 'w>(
    alloc: Global,
    repeated: &BTreeSet<&str>,
    units: &[Shown<'u, '_, 'w>],
) -> Result<Vec<Row<'u, 'w>>, AllocError>
    ensures { (names : List Text) → HasRepeated repeated.now names → IfOk result (λ rows. map row_text rows.items ≡ map (spec.row_of names) (map shown_text units.now)) }
{
    let mut rows = Vec::with_capacity(alloc, units.len())?;
    for unit in units {
        rows.push(Row {
            place: unit.place,
            label: label_of(alloc, repeated, unit.package)?,
            features: unit.features,
        })?;
    }
    Ok(rows)
}

/// Returns the rows of `units`, which are packages of `workspace`.
pub(crate) fn rows_of<'u, 'w>(
    alloc: Global,
    workspace: &Workspace<'_>,
    units: &[Shown<'u, '_, 'w>],
) -> Result<Vec<Row<'u, 'w>>, AllocError>
    ensures { IfOk result (λ rows. map row_text rows.items ≡ map (spec.row_of (map spec.name_of (workspace_text workspace.now).packages)) (map shown_text units.now)) }
{
    let names = names_of(alloc, workspace.packages())?;
    let repeated = repeated_in(alloc, &names)?;
    rows_by(alloc, &repeated, units)
}
