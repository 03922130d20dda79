//! A plan as text in columns.
ghost use Rattle.std.specs.Prelude.{◌≡◌, ◌++◌, ◌∷◌, [], IfOk, OnOk, map, string_bytes, flat_map, max, length, replicate, ◌-◌};
ghost use Rattle.cargo_workspaces.specs.WorkspaceView.{workspace_text};
ghost use Rattle.feats_lines.specs.Lines as spec;
ghost use Rattle.feats_lines.specs.Views.{shown_text};
ghost use Rattle.feats_lines.specs.inner.Rows.{row_text};
ghost use Rattle.shown_texts.specs.Shown.{escaped as escaped_text};

use crate::rows::{Row, rows_of};
use crate::shown::Shown;
use cargo_workspaces::Workspace;
use shown_texts::escaped;
use std::alloc::{AllocError, Global};

/// Returns the larger number.
fn larger(width: usize, other: usize) -> usize
    ensures { result ≡ max width other }
{
    if width < other { other } else { width }
}

/// Returns the width of the column of places, in bytes.
fn place_width(rows: &[Row<'_, '_>]) -> usize
    ensures { result ≡ spec.place_width (map row_text rows.now) }
{
    let mut width = 0;
    for row in rows {
        width = larger(width, row.place.len());
    }
    width
}

/// Returns the width of the column of labels, in bytes.
fn label_width(rows: &[Row<'_, '_>]) -> usize
    ensures { result ≡ spec.label_width (map row_text rows.now) }
{
    let mut width = 0;
    for row in rows {
        width = larger(width, row.label.len());
    }
    width
}

/// Appends `cell`, and spaces to fill `width` bytes and one more.
fn push_cell(text: &mut String, cell: &str, width: usize) -> Result<(), AllocError>
    ensures { OnOk result (string_bytes text.new ≡ string_bytes text.old ++ spec.cell width cell.now) }
{
    text.push_str(cell)?;
    for _column in cell.len()..width {
        text.push_str(" ")?;
    }
    text.push_str(" ")
}

/// Appends a space and the text for each of `features`.
fn push_features(text: &mut String, features: &[&str]) -> Result<(), AllocError>
    ensures { OnOk result (string_bytes text.new ≡ string_bytes text.old ++ flat_map spec.spaced (map (λ f. f.now) features.now)) }
{
    for feature in features {
        text.push_str(" ")?;
        text.push_str(feature)?;
    }
    Ok(())
}

/// Appends the label and the features; without features the label ends the line.
fn push_label(text: &mut String, row: &Row<'_, '_>, width: usize) -> Result<(), AllocError>
    ensures { OnOk result (string_bytes text.new ≡ string_bytes text.old ++ spec.label_columns width (row_text row.now)) }
{
    match row.features {
        [] => text.push_str(row.label.as_str()),
        [_, ..] => {
            push_cell(text, row.label.as_str(), width)?;
            push_features(text, row.features)
        }
    }
}

/// Returns the columns of `row`, which have these widths.
fn columns_of(
    alloc: Global,
    row: &Row<'_, '_>,
    places: usize,
    labels: usize,
) -> Result<String, AllocError>
    ensures { IfOk result (λ text. string_bytes text ≡ spec.columns_of places labels (row_text row.now)) }
{
    let mut text = String::new(alloc);
    push_cell(&mut text, row.place, places)?;
    text.push_str(" ")?;
    push_label(&mut text, row, labels)?;
    Ok(text)
}

/// Returns the columns of `row`, which have these widths, with their control characters escaped.
fn shown_columns(
    alloc: Global,
    row: &Row<'_, '_>,
    places: usize,
    labels: usize,
) -> Result<String, AllocError>
    ensures { IfOk result (λ text. string_bytes text ≡ escaped_text (spec.columns_of places labels (row_text row.now))) }
{
    let columns = columns_of(alloc, row, places, labels)?;
    escaped(alloc, columns.as_str())
}

/// Appends the line of `row`, in columns of these widths.
fn push_row(
    alloc: Global,
    text: &mut String,
    row: &Row<'_, '_>,
    places: usize,
    labels: usize,
) -> Result<(), AllocError>
    ensures { OnOk result (string_bytes text.new ≡ string_bytes text.old ++ spec.line_of places labels (row_text row.now)) }
{
    let columns = shown_columns(alloc, row, places, labels)?;
    text.push_str(columns.as_str())?;
    text.push_str("\n")
}

/// Returns the lines of `rows`.
fn table_of(alloc: Global, rows: &[Row<'_, '_>]) -> Result<String, AllocError>
    ensures { IfOk result (λ text. string_bytes text ≡ spec.table_of (map row_text rows.now)) }
{
    let places = place_width(rows);
    let labels = label_width(rows);
    let mut text = String::new(alloc);
    for row in rows {
        push_row(alloc, &mut text, row, places, labels)?;
    }
    Ok(text)
}

/// Returns a line for each of `units`, which are packages of `workspace`: its place, its name and version, with its source if
/// several packages have both, and its features. The columns are as wide as their widest text. Control characters are escaped, the line
/// feed too.
pub fn lines_of(
    alloc: Global,
    workspace: &Workspace<'_>,
    units: &[Shown<'_, '_, '_>],
) -> Result<String, AllocError>
    ensures { IfOk result (λ text. string_bytes text ≡ spec.plan_lines (workspace_text workspace.now).packages (map shown_text units.now)) }
{
    let rows = rows_of(alloc, workspace, units)?;
    table_of(alloc, &rows)
}
