//! Tables of three columns.
ghost use Rattle.std.specs.Prelude.{◌≡◌, ◌++◌, ◌-◌, IfOk, OnOk, map, max, length, string_bytes};
ghost use Rattle.feats_lines.specs.parts.Tables as spec;
ghost use Rattle.feats_lines.specs.parts.Views.{row_text};

use shown_texts::escaped;
use std::alloc::{AllocError, Global};

/// A row of a table: the texts of its columns. In a table their control characters are escaped.
#[derive(Drop)]
pub struct Row {
    pub first: String,
    pub second: String,
    /// If empty, the second text ends the line.
    pub third: String,
}

/// Returns the larger number.
fn larger(width: usize, other: usize) -> usize
    ensures { result ≡ max width other }
{
    if width < other { other } else { width }
}

/// Returns the width of the first column, in bytes.
fn first_width(rows: &[Row]) -> usize
    ensures { result ≡ spec.first_width (map row_text rows.now) }
{
    let mut width = 0;
    for row in rows {
        width = larger(width, row.first.len());
    }
    width
}

/// Returns the width of the second column, in bytes.
fn second_width(rows: &[Row]) -> usize
    ensures { result ≡ spec.second_width (map row_text rows.now) }
{
    let mut width = 0;
    for row in rows {
        width = larger(width, row.second.len());
    }
    width
}

/// Appends `cell`, and spaces to fill `width` bytes and two more.
fn push_cell(text: &mut String, cell: &str, width: usize) -> Result<(), AllocError>
    ensures { OnOk result (string_bytes text.new ≡ string_bytes text.old ++ spec.cell width cell.now) }
{
    text.push_str(cell)?;
    for _column in cell.len()..width {
        text.push_str(" ")?;
    }
    text.push_str("  ")
}

/// Appends the second and the third text.
fn push_end(text: &mut String, second: &str, third: &str, width: usize) -> Result<(), AllocError>
    ensures { OnOk result (string_bytes text.new ≡ string_bytes text.old ++ spec.line_end width second.now third.now) }
{
    if third.is_empty() {
        return text.push_str(second);
    }
    push_cell(text, second, width)?;
    text.push_str(third)
}

/// Appends the line of `row`, in columns of these widths.
fn push_row(text: &mut String, row: &Row, first: usize, second: usize) -> Result<(), AllocError>
    ensures { OnOk result (string_bytes text.new ≡ string_bytes text.old ++ spec.line_of first second (row_text row.now)) }
{
    push_cell(text, row.first.as_str(), first)?;
    push_end(text, row.second.as_str(), row.third.as_str(), second)?;
    text.push_str("\n")
}

/// Returns `row`, with the control characters of its texts escaped.
fn shown_row(alloc: Global, row: &Row) -> Result<Row, AllocError>
    ensures { IfOk result (λ shown. row_text shown ≡ spec.shown_row (row_text row.now)) }
{
    let first = escaped(alloc, row.first.as_str())?;
    let second = escaped(alloc, row.second.as_str())?;
    let third = escaped(alloc, row.third.as_str())?;
    Ok(Row {
        first,
        second,
        third,
    })
}

/// Returns each of `rows`, with the control characters of their texts escaped.
fn shown_rows(alloc: Global, rows: &[Row]) -> Result<Vec<Row>, AllocError>
    ensures { IfOk result (λ shown. map row_text shown.items ≡ map spec.shown_row (map row_text rows.now)) }
{
    let mut shown = Vec::with_capacity(alloc, rows.len())?;
    for row in rows {
        shown.push(shown_row(alloc, row)?)?;
    }
    Ok(shown)
}

/// Returns a line for each of `rows`, whose texts are as they are shown.
fn lines_of(alloc: Global, rows: &[Row]) -> Result<String, AllocError>
    ensures { IfOk result (λ text. string_bytes text ≡ spec.lines_of (map row_text rows.now)) }
{
    let first = first_width(rows);
    let second = second_width(rows);
    let mut text = String::new(alloc);
    for row in rows {
        push_row(&mut text, row, first, second)?;
    }
    Ok(text)
}

/// Returns a line for each of `rows`. Control characters in them are escaped, the line feed too. Columns are as wide as their widest text,
/// and two spaces apart.
pub fn table_of(alloc: Global, rows: &[Row]) -> Result<String, AllocError>
    ensures { IfOk result (λ text. string_bytes text ≡ spec.table_of (map row_text rows.now)) }
{
    let shown = shown_rows(alloc, rows)?;
    lines_of(alloc, &shown)
}
