//! Edits by which a build is smaller, as text in columns.
ghost use Rattle.std.specs.Prelude.{◌≡◌, ◌++◌, ◌∷◌, [], IfOk, map, string_bytes};
ghost use Rattle.cargo_workspaces.specs.Views.{package_text};
ghost use Rattle.feats_lines.specs.parts.Views.{row_text};
ghost use Rattle.feats_slim.specs.edits.SlimViews.{slim_text};
ghost use Rattle.feats_slim.specs.answers.Lines as spec;
ghost use Rattle.feats_slim.specs.answers.Views.{shown_text};

use crate::answers::rows::{row_of, title_row};
use crate::answers::shown::{Shown, all_shown};
use crate::edits::Slim;
use cargo_workspaces::Package;
use feats_lines::parts::{Row, table_of};
use std::alloc::{AllocError, Global};

/// Returns the row of the titles, and one for each of `shown`.
fn rows_of(alloc: Global, shown: &[Shown<'_, '_>]) -> Result<Vec<Row>, AllocError>
    ensures { IfOk result (λ rows. map row_text rows.items ≡ spec.titles ∷ map spec.row_of (map shown_text shown.now)) }
{
    let mut rows = Vec::new(alloc);
    rows.push(title_row(alloc)?)?;
    for one in shown {
        rows.push(row_of(alloc, one)?)?;
    }
    Ok(rows)
}

/// Returns the table of `shown`.
fn table_of_shown(alloc: Global, shown: &[Shown<'_, '_>]) -> Result<String, AllocError>
    ensures { IfOk result (λ text. string_bytes text ≡ spec.table_of_shown (map shown_text shown.now)) }
{
    let rows = rows_of(alloc, shown)?;
    table_of(alloc, &rows)
}

/// Returns the lines of `shown`.
fn lines_of(alloc: Global, shown: &[Shown<'_, '_>]) -> Result<String, AllocError>
    ensures { IfOk result (λ text. string_bytes text ≡ spec.lines_of (map shown_text shown.now)) }
{
    match shown {
        [] => String::from_str(alloc, "no edit makes this build smaller\n"),
        [_, ..] => table_of_shown(alloc, shown),
    }
}

/// Returns a line for each of `slims`, below a line of titles: the numbers of packages and of features that fall away, and the edit. Without
/// edits the text is the line `no edit makes this build smaller`. `packages` are those of the workspace; edits of declarations that they
/// don't have are left out.
pub fn slim_lines<'u>(
    alloc: Global,
    packages: &'u [Package<'_>],
    slims: &[Slim<'u>],
) -> Result<String, AllocError>
    ensures { IfOk result (λ text. string_bytes text ≡ spec.slim_lines (map package_text packages.now) (map slim_text slims.now)) }
{
    let shown = all_shown(alloc, packages, slims)?;
    lines_of(alloc, &shown)
}
