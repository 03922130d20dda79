//! The differences as text in columns.
ghost use Rattle.std.specs.Prelude.{◌≡◌, IfOk, flat_map, map, string_bytes};
ghost use Rattle.cargo_workspaces.specs.Views.{package_text};
ghost use Rattle.feats_diff.specs.texts.Lines as spec;
ghost use Rattle.feats_diff.specs.texts.Views.{difference_text};
ghost use Rattle.feats_diff.specs.texts.inner.Names.{AreRepeated, names_text};
ghost use Rattle.feats_lines.specs.parts.Tables.{table_of as table_text};
ghost use Rattle.feats_lines.specs.parts.Views.{row_text};

use crate::texts::rows::push_rows;
use crate::texts::shown::Difference;
use crate::texts::titles::Repeated;
use cargo_workspaces::Package;
use feats_lines::parts::{Row, table_of};
use feats_lines::{names_of, repeated_in};
use std::alloc::{AllocError, Global};

/// Returns the rows of `shown`.
fn rows_of(
    alloc: Global,
    repeated: &Repeated<'_, '_>,
    shown: &[Difference<'_, '_, '_>],
) -> Result<Vec<Row>, AllocError>
    requires { AreRepeated repeated.now }
    ensures { IfOk result (λ rows. map row_text rows.items ≡ flat_map (spec.rows_of (names_text repeated.now)) (map difference_text shown.now)) }
{
    let mut rows = Vec::new(alloc);
    for difference in shown {
        push_rows(alloc, &mut rows, repeated, difference)?;
    }
    Ok(rows)
}

/// Returns the table of `shown`, where the sets have the names that several packages have.
fn table(
    alloc: Global,
    repeated: &Repeated<'_, '_>,
    shown: &[Difference<'_, '_, '_>],
) -> Result<String, AllocError>
    requires { AreRepeated repeated.now }
    ensures { IfOk result (λ text. string_bytes text ≡ table_text (flat_map (spec.rows_of (names_text repeated.now)) (map difference_text shown.now))) }
{
    let rows = rows_of(alloc, repeated, shown)?;
    table_of(alloc, &rows)
}

/// Returns the lines of `shown`, where packages have these names and versions.
fn lines_by(
    alloc: Global,
    old: &[String],
    new: &[String],
    shown: &[Difference<'_, '_, '_>],
) -> Result<String, AllocError>
    ensures { IfOk result (λ text. string_bytes text ≡ spec.lines_by (map string_bytes old.now) (map string_bytes new.now) (map difference_text shown.now)) }
{
    let old_repeated = repeated_in(alloc, old)?;
    let new_repeated = repeated_in(alloc, new)?;
    let repeated = Repeated {
        old_names: old,
        new_names: new,
        old: &old_repeated,
        new: &new_repeated,
    };
    table(alloc, &repeated, shown)
}

/// Returns lines for each of `shown`, which are packages of `old` and `new`: a mark, its place, its name and version, and its features.
/// The mark is `+` if it comes, `-` if it goes, and `~` if its version or features change. The last step of each `why` follows.
pub fn difference_lines(
    alloc: Global,
    old: &[Package<'_>],
    new: &[Package<'_>],
    shown: &[Difference<'_, '_, '_>],
) -> Result<String, AllocError>
    ensures { IfOk result (λ text. string_bytes text ≡ spec.difference_lines (map package_text old.now) (map package_text new.now) (map difference_text shown.now)) }
{
    let old_names = names_of(alloc, old)?;
    let new_names = names_of(alloc, new)?;
    lines_by(alloc, &old_names, &new_names, shown)
}
