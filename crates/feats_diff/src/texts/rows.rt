//! The rows of the table of differences.
ghost use Rattle.std.specs.Prelude.{◌≡◌, ◌++◌, IfOk, OnOk, flat_map, map, string_bytes};
ghost use Rattle.feats_diff.specs.texts.Lines as spec;
ghost use Rattle.cargo_workspaces.specs.Views.{texts};
ghost use Rattle.feats_diff.specs.texts.Views.{difference_text, turned_text};
ghost use Rattle.feats_diff.specs.texts.inner.Names.{AreRepeated, names_text};
ghost use Rattle.feats_lines.specs.parts.Views.{row_text};
ghost use Rattle.feats_lines.specs.Views.{shown_text};

use crate::texts::columns::{features_cell, marks_cell, place_cell};
use crate::texts::shown::{Difference, Turned};
use crate::texts::titles::{Repeated, changed_title};
use feats_lines::parts::Row;
use feats_lines::{Shown, label_of};
use std::alloc::{AllocError, Global};

/// Appends the row of `why`, unless it is empty.
fn push_why(alloc: Global, rows: &mut Vec<Row>, why: &str) -> Result<(), AllocError>
    ensures { OnOk result (map row_text rows.new.items ≡ map row_text rows.old.items ++ spec.why_rows why.now) }
{
    if why.is_empty() {
        return Ok(());
    }
    let row = Row {
        first: String::new(alloc),
        second: String::new(alloc),
        third: String::from_str(alloc, why)?,
    };
    rows.push(row)?;
    Ok(())
}

/// Appends the rows of why each of `comes` is on.
fn push_whys(alloc: Global, rows: &mut Vec<Row>, comes: &[Turned<'_>]) -> Result<(), AllocError>
    ensures { OnOk result (map row_text rows.new.items ≡ map row_text rows.old.items ++ flat_map (λ t. spec.why_rows t.why) (map turned_text comes.now)) }
{
    for one in comes {
        push_why(alloc, rows, one.why.as_str())?;
    }
    Ok(())
}

/// Returns the row of a package that comes.
fn new_row(
    alloc: Global,
    repeated: &Repeated<'_, '_>,
    new: &Shown<'_, '_, '_>,
) -> Result<Row, AllocError>
    requires { AreRepeated repeated.now }
    ensures { IfOk result (λ row. row_text row ≡ spec.new_row (names_text repeated.now) (shown_text new.now)) }
{
    let first = place_cell(alloc, "+ ", new.place)?;
    let second = label_of(alloc, repeated.new, new.package)?;
    let third = features_cell(alloc, new.features)?;
    Ok(Row {
        first,
        second,
        third,
    })
}

/// Returns the row of a package that goes.
fn old_row(
    alloc: Global,
    repeated: &Repeated<'_, '_>,
    old: &Shown<'_, '_, '_>,
) -> Result<Row, AllocError>
    requires { AreRepeated repeated.now }
    ensures { IfOk result (λ row. row_text row ≡ spec.old_row (names_text repeated.now) (shown_text old.now)) }
{
    let first = place_cell(alloc, "- ", old.place)?;
    let second = label_of(alloc, repeated.old, old.package)?;
    let third = features_cell(alloc, old.features)?;
    Ok(Row {
        first,
        second,
        third,
    })
}

/// Returns the row of a package that changes.
fn changed_row(
    alloc: Global,
    repeated: &Repeated<'_, '_>,
    old: &Shown<'_, '_, '_>,
    new: &Shown<'_, '_, '_>,
    comes: &[Turned<'_>],
    goes: &[&str],
) -> Result<Row, AllocError>
    requires { AreRepeated repeated.now }
    ensures { IfOk result (λ row. row_text row ≡ spec.changed_row (names_text repeated.now) (shown_text old.now) (shown_text new.now) (map turned_text comes.now) (texts goes.now)) }
{
    let first = place_cell(alloc, "~ ", new.place)?;
    let second = changed_title(alloc, repeated, old.package, new.package)?;
    let third = marks_cell(alloc, comes, goes)?;
    Ok(Row {
        first,
        second,
        third,
    })
}

/// Appends the rows of `difference`.
pub(crate) fn push_rows(
    alloc: Global,
    rows: &mut Vec<Row>,
    repeated: &Repeated<'_, '_>,
    difference: &Difference<'_, '_, '_>,
) -> Result<(), AllocError>
    requires { AreRepeated repeated.now }
    ensures { OnOk result (map row_text rows.new.items ≡ map row_text rows.old.items ++ spec.rows_of (names_text repeated.now) (difference_text difference.now)) }
{
    match difference {
        Difference::Comes { new, why } => {
            let row = new_row(alloc, repeated, new)?;
            rows.push(row)?;
            push_why(alloc, rows, why.as_str())
        }
        Difference::Goes { old } => {
            let row = old_row(alloc, repeated, old)?;
            rows.push(row)?;
            Ok(())
        }
        Difference::Changes {
            old,
            new,
            comes,
            goes,
        } => {
            let row = changed_row(alloc, repeated, old, new, comes, goes)?;
            rows.push(row)?;
            push_whys(alloc, rows, comes)
        }
    }
}
