//! An explanation as text in columns.
ghost use Rattle.std.specs.Prelude.{◌≡◌, ◌++◌, ◌-◌, IfOk, OnOk, length, map, max, replicate, string_bytes};
ghost use Rattle.cargo_workspaces.specs.WorkspaceView.{workspace_text};
ghost use Rattle.feats_lines.specs.Lines as plan;
ghost use Rattle.feats_why.specs.Lines as spec;
ghost use Rattle.feats_why.specs.Settings.{settings_text};
ghost use Rattle.plan_whys.specs.StepViews.{why_text};
ghost use Rattle.feats_why.specs.Views.{steps_text};
ghost use Rattle.feats_why.specs.inner.Labelled.{AreLabels, packages_of};
ghost use Rattle.feats_why.specs.inner.Rows.{row_text};

use crate::labels::{Labels, labels_of};
use crate::rows::{Row, rows_of};
use crate::settings::WhySettings;
use cargo_workspaces::Workspace;
use feats_lines::names_of;
use plan_rows::Platform;
use plan_whys::WhyStep;
use shown_texts::escaped;
use std::alloc::{AllocError, Global};

/// Returns the larger number.
fn larger(width: usize, other: usize) -> usize
    ensures { result ≡ max width other }
{
    if width < other { other } else { width }
}

/// Returns the width of the column of labels, in bytes.
fn label_width(rows: &[Row]) -> usize
    ensures { result ≡ spec.label_width (map row_text rows.now) }
{
    let mut width = 0;
    for row in rows {
        width = larger(width, row.label.len());
    }
    width
}

/// Appends `label`, and spaces to fill `width` bytes and one more.
fn push_cell(text: &mut String, label: &str, width: usize) -> Result<(), AllocError>
    ensures { OnOk result (string_bytes text.new ≡ string_bytes text.old ++ plan.cell width label.now) }
{
    text.push_str(label)?;
    for _column in label.len()..width {
        text.push_str(" ")?;
    }
    text.push_str(" ")
}

/// Appends the line of `row`, in a column of this width.
fn push_row(text: &mut String, row: &Row, width: usize) -> Result<(), AllocError>
    ensures { OnOk result (string_bytes text.new ≡ string_bytes text.old ++ spec.line_of width (row_text row.now)) }
{
    push_cell(text, row.label.as_str(), width)?;
    text.push_str(" ")?;
    text.push_str(row.reason.as_str())?;
    text.push_str("\n")
}

/// Returns `row`, with the control characters of its texts escaped.
fn shown_row(alloc: Global, row: &Row) -> Result<Row, AllocError>
    ensures { IfOk result (λ shown. row_text shown ≡ spec.shown_row (row_text row.now)) }
{
    let label = escaped(alloc, row.label.as_str())?;
    let reason = escaped(alloc, row.reason.as_str())?;
    Ok(Row { label, reason })
}

/// Returns each of `rows`, with the control characters of their texts escaped.
fn shown_rows(alloc: Global, rows: &[Row]) -> Result<Vec<Row>, AllocError>
    ensures { IfOk result (λ shown. map row_text shown.items ≡ map spec.shown_row (map row_text rows.now)) }
{
    let mut shown = Vec::with_capacity(alloc, rows.len())?;
    for row in rows {
        shown.push(shown_row(alloc, row)?)?;
    }
    Ok(shown)
}

/// Returns the lines of `rows`, whose texts are as they are shown.
fn lines_of(alloc: Global, rows: &[Row]) -> Result<String, AllocError>
    ensures { IfOk result (λ text. string_bytes text ≡ spec.lines_of (map row_text rows.now)) }
{
    let width = label_width(rows);
    let mut text = String::new(alloc);
    for row in rows {
        push_row(&mut text, row, width)?;
    }
    Ok(text)
}

/// Returns the lines of `rows`. Control characters in them are escaped, the line feed too.
pub(crate) fn table_of(alloc: Global, rows: &[Row]) -> Result<String, AllocError>
    ensures { IfOk result (λ text. string_bytes text ≡ spec.table_of (map row_text rows.now)) }
{
    let shown = shown_rows(alloc, rows)?;
    lines_of(alloc, &shown)
}

/// Returns the lines of `steps`.
fn lines_by<P: Platform>(
    alloc: Global,
    labels: &Labels<'_, '_>,
    settings: &WhySettings<'_, P>,
    steps: &[WhyStep<'_>],
) -> Result<String, AllocError>
    requires labels { AreLabels labels.now }
    requires sides { labels.now.sides ≡ settings.now.split }
    ensures { IfOk result (λ text. string_bytes text ≡ spec.why_lines (packages_of labels.now) (settings_text P.holds settings.now) (map why_text steps.now)) }
{
    let rows = rows_of(alloc, labels, settings, steps)?;
    table_of(alloc, &rows)
}

/// Returns the lines of each of `lists`.
fn each_by<P: Platform>(
    alloc: Global,
    labels: &Labels<'_, '_>,
    settings: &WhySettings<'_, P>,
    lists: &[&[WhyStep<'_>]],
) -> Result<Vec<String>, AllocError>
    requires labels { AreLabels labels.now }
    requires sides { labels.now.sides ≡ settings.now.split }
    ensures { IfOk result (λ texts. map string_bytes texts.items ≡ map (spec.why_lines (packages_of labels.now) (settings_text P.holds settings.now)) (map steps_text lists.now)) }
{
    let mut texts = Vec::with_capacity(alloc, lists.len())?;
    for steps in lists {
        texts.push(lines_by(alloc, labels, settings, *steps)?)?;
    }
    Ok(texts)
}

/// Returns a line for each of `steps`, which are those of an explanation in `workspace`: the label of its spot, and the reason why it
/// is on, in words. Steps at command features aren't shown. The labels are a column as wide as the widest. Control characters are escaped,
/// the line feed too.
pub fn why_lines<P: Platform>(
    alloc: Global,
    workspace: &Workspace<'_>,
    settings: &WhySettings<'_, P>,
    steps: &[WhyStep<'_>],
) -> Result<String, AllocError>
    ensures { IfOk result (λ text. string_bytes text ≡ spec.why_lines (workspace_text workspace.now).packages (settings_text P.holds settings.now) (map why_text steps.now)) }
{
    let versions = names_of(alloc, workspace.packages())?;
    let labels = labels_of(alloc, workspace.packages(), &versions, settings.split)?;
    lines_by(alloc, &labels, settings, steps)
}

/// Returns the lines of each of `lists`, as `why_lines` does.
pub fn each_why_lines<P: Platform>(
    alloc: Global,
    workspace: &Workspace<'_>,
    settings: &WhySettings<'_, P>,
    lists: &[&[WhyStep<'_>]],
) -> Result<Vec<String>, AllocError>
    ensures { IfOk result (λ texts. map string_bytes texts.items ≡ map (spec.why_lines (workspace_text workspace.now).packages (settings_text P.holds settings.now)) (map steps_text lists.now)) }
{
    let versions = names_of(alloc, workspace.packages())?;
    let labels = labels_of(alloc, workspace.packages(), &versions, settings.split)?;
    each_by(alloc, &labels, settings, lists)
}
