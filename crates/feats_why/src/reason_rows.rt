//! An explanation with every direct reason, as text in columns.
ghost use Rattle.std.specs.Prelude.{◌≡◌, ◌++◌, IfOk, OnOk, flat_map, fold, map, string_bytes};
ghost use Rattle.cargo_workspaces.specs.WorkspaceView.{workspace_text};
ghost use Rattle.feats_why.specs.ReasonedLines as spec;
ghost use Rattle.feats_why.specs.Reasons.{reason_words as words_of};
ghost use Rattle.feats_why.specs.Settings.{settings_text};
ghost use Rattle.plan_whys.specs.StepViews.{reason_text, reasoned_text, spot_text};
ghost use Rattle.feats_why.specs.inner.Labelled.{AreLabels, packages_of};
ghost use Rattle.feats_why.specs.inner.Rows.{row_text};

use crate::labels::{Labels, labels_of};
use crate::reasons::reason_words;
use crate::relations::is_shown;
use crate::rows::{Row, row_of};
use crate::settings::WhySettings;
use crate::table::table_of;
use cargo_workspaces::Workspace;
use feats_lines::names_of;
use plan_rows::Platform;
use plan_whys::{ReasonedStep, Spot, WhyReason};
use std::alloc::{AllocError, Global};

/// Returns whether one of `rows` has the reason `words`.
fn has_words(rows: &[Row], words: &str) -> bool
    ensures { result ≡ spec.has_words words.now (map row_text rows.now) }
{
    for row in rows {
        if words == row.reason.as_str() {
            return true;
        }
    }
    false
}

/// Appends a row for the reason `words`, unless a row has it.
fn note_words(alloc: Global, rows: &mut Vec<Row>, words: String) -> Result<(), AllocError>
    ensures { OnOk result (map row_text rows.new.items ≡ spec.with_words (map row_text rows.old.items) (string_bytes words)) }
{
    if has_words(rows, words.as_str()) {
        return Ok(());
    }
    rows.push(Row {
        label: String::new(alloc),
        reason: words,
    })?;
    Ok(())
}

/// Appends a row for each of `reasons` why `at` is on that no row has.
fn push_reasons<P: Platform>(
    alloc: Global,
    rows: &mut Vec<Row>,
    labels: &Labels<'_, '_>,
    settings: &WhySettings<'_, P>,
    at: Spot<'_>,
    reasons: &[WhyReason<'_>],
) -> Result<(), AllocError>
    requires labels { AreLabels labels.now }
    requires sides { labels.now.sides ≡ settings.now.split }
    ensures { OnOk result (map row_text rows.new.items ≡ fold spec.with_words (map row_text rows.old.items) (map (words_of (packages_of labels.now) (settings_text P.holds settings.now) (spot_text at.entry)) (map reason_text reasons.now))) }
{
    for reason in reasons {
        let words = reason_words(alloc, labels, settings, at, *reason)?;
        note_words(alloc, rows, words)?;
    }
    Ok(())
}

/// Returns the rows of `reasoned`.
fn rows_with_reasons<P: Platform>(
    alloc: Global,
    labels: &Labels<'_, '_>,
    settings: &WhySettings<'_, P>,
    reasoned: &ReasonedStep<'_>,
) -> Result<Vec<Row>, AllocError>
    requires labels { AreLabels labels.now }
    requires sides { labels.now.sides ≡ settings.now.split }
    ensures { IfOk result (λ rows. map row_text rows.items ≡ spec.rows_with_reasons (packages_of labels.now) (settings_text P.holds settings.now) (reasoned_text reasoned.now)) }
{
    let mut rows = Vec::new(alloc);
    rows.push(row_of(alloc, labels, settings, &reasoned.step)?)?;
    push_reasons(
        alloc,
        &mut rows,
        labels,
        settings,
        reasoned.step.at,
        &reasoned.reasons,
    )?;
    Ok(rows)
}

/// Returns the rows of `reasoned`; none, if the step isn't shown.
fn shown_rows<P: Platform>(
    alloc: Global,
    labels: &Labels<'_, '_>,
    settings: &WhySettings<'_, P>,
    reasoned: &ReasonedStep<'_>,
) -> Result<Vec<Row>, AllocError>
    requires labels { AreLabels labels.now }
    requires sides { labels.now.sides ≡ settings.now.split }
    ensures { IfOk result (λ rows. map row_text rows.items ≡ spec.shown_rows (packages_of labels.now) (settings_text P.holds settings.now) (reasoned_text reasoned.now)) }
{
    if is_shown(&reasoned.step) {
        rows_with_reasons(alloc, labels, settings, reasoned)
    } else {
        Ok(Vec::new(alloc))
    }
}

/// Returns the rows of `steps`.
fn all_rows<P: Platform>(
    alloc: Global,
    labels: &Labels<'_, '_>,
    settings: &WhySettings<'_, P>,
    steps: &[ReasonedStep<'_>],
) -> Result<Vec<Row>, AllocError>
    requires labels { AreLabels labels.now }
    requires sides { labels.now.sides ≡ settings.now.split }
    ensures { IfOk result (λ rows. map row_text rows.items ≡ flat_map (spec.shown_rows (packages_of labels.now) (settings_text P.holds settings.now)) (map reasoned_text steps.now)) }
{
    let mut rows = Vec::new(alloc);
    for step in steps {
        let mut more = shown_rows(alloc, labels, settings, step)?;
        rows.append(&mut more)?;
    }
    Ok(rows)
}

/// Returns the lines of `why_lines` for the steps, where a further line follows for each other direct reason of a step's spot. Such a line
/// has no label. A reason whose words a line of the step has already isn't shown.
pub fn reasoned_lines<P: Platform>(
    alloc: Global,
    workspace: &Workspace<'_>,
    settings: &WhySettings<'_, P>,
    steps: &[ReasonedStep<'_>],
) -> Result<String, AllocError>
    ensures { IfOk result (λ text. string_bytes text ≡ spec.reasoned_lines (workspace_text workspace.now).packages (settings_text P.holds settings.now) (map reasoned_text steps.now)) }
{
    let versions = names_of(alloc, workspace.packages())?;
    let labels = labels_of(alloc, workspace.packages(), &versions, settings.split)?;
    let rows = all_rows(alloc, &labels, settings, steps)?;
    table_of(alloc, &rows)
}
