//! The lines as text in columns.
ghost use Rattle.std.specs.Prelude.{◌≡◌, List, IfOk, map, string_bytes};
ghost use Rattle.cargo_workspaces.specs.Workspaces.{Text};
ghost use Rattle.cargo_workspaces.specs.Views.{package_text};
ghost use Rattle.feats_lines.specs.parts.Views.{row_text};
ghost use Rattle.feats_lines.specs.Lines.{name_of};
ghost use Rattle.feats_lines.specs.Repeats.{HasRepeated};
ghost use Rattle.feats_unused.specs.Lines as spec;
ghost use Rattle.feats_unused.specs.Views.{shown_text};

use crate::rows::row_of;
use crate::shown::Shown;
use cargo_workspaces::Package;
use feats_lines::parts::{Row, table_of};
use feats_lines::{names_of, repeated_in};
use std::alloc::{AllocError, Global};
use std::collections::BTreeSet;

/// Returns the row of each of `shown`. `repeated` is the set of the names that several packages have.
fn rows_by(
    alloc: Global,
    repeated: &BTreeSet<&str>,
    shown: &[Shown<'_, '_>],
) -> Result<Vec<Row>, AllocError>
    ensures { (names : List Text) → HasRepeated repeated.now names → IfOk result (λ rows. map row_text rows.items ≡ map (spec.row_of names) (map shown_text shown.now)) }
{
    let mut rows = Vec::with_capacity(alloc, shown.len())?;
    for one in shown {
        rows.push(row_of(alloc, repeated, one)?)?;
    }
    Ok(rows)
}

/// Returns the row of each of `shown`, over the packages of the workspace.
fn rows_of(
    alloc: Global,
    packages: &[Package<'_>],
    shown: &[Shown<'_, '_>],
) -> Result<Vec<Row>, AllocError>
    ensures { IfOk result (λ rows. map row_text rows.items ≡ map (spec.row_of (map name_of (map package_text packages.now))) (map shown_text shown.now)) }
{
    let names = names_of(alloc, packages)?;
    let repeated = repeated_in(alloc, &names)?;
    rows_by(alloc, &repeated, shown)
}

/// Returns a line for each of `shown`: its kind, the name and version of its package, with the source if another of `packages` has
/// both, and the unused feature, or the feature and its dead item. Its only error is out of memory.
pub fn unused_lines(
    alloc: Global,
    packages: &[Package<'_>],
    shown: &[Shown<'_, '_>],
) -> Result<String, AllocError>
    ensures { IfOk result (λ text. string_bytes text ≡ spec.unused_lines (map package_text packages.now) (map shown_text shown.now)) }
{
    let rows = rows_of(alloc, packages, shown)?;
    table_of(alloc, &rows)
}
