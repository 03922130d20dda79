//! The rows of the table that shows an explanation.
ghost use Rattle.std.specs.Prelude.{◌≡◌, IfOk, filter, map};
ghost use Rattle.feats_why.specs.Lines as spec;
ghost use Rattle.feats_why.specs.Relations as relation;
ghost use Rattle.feats_why.specs.Settings.{settings_text};
ghost use Rattle.plan_whys.specs.StepViews.{why_text};
ghost use Rattle.feats_why.specs.inner.Labelled.{AreLabels, packages_of};
ghost use Rattle.feats_why.specs.inner.Rows.{row_text};

use crate::labels::{Labels, label_text};
use crate::reasons::reason_words;
use crate::relations::is_shown;
use crate::settings::WhySettings;
use plan_rows::Platform;
use plan_whys::WhyStep;
use std::alloc::{AllocError, Global};

/// A row of the table: the texts of its columns.
#[derive(Drop)]
pub(crate) struct Row {
    pub(crate) label: String,
    pub(crate) reason: String,
}

/// Returns the row of `step`.
pub(crate) fn row_of<P: Platform>(
    alloc: Global,
    labels: &Labels<'_, '_>,
    settings: &WhySettings<'_, P>,
    step: &WhyStep<'_>,
) -> Result<Row, AllocError>
    requires labels { AreLabels labels.now }
    requires sides { labels.now.sides ≡ settings.now.split }
    ensures { IfOk result (λ row. row_text row ≡ spec.row_of (packages_of labels.now) (settings_text P.holds settings.now) (why_text step.now)) }
{
    Ok(Row {
        label: label_text(alloc, labels, step.at)?,
        reason: reason_words(alloc, labels, settings, step.at, step.reason)?,
    })
}

/// Returns the rows of those of `steps` that are shown.
pub(crate) fn rows_of<P: Platform>(
    alloc: Global,
    labels: &Labels<'_, '_>,
    settings: &WhySettings<'_, P>,
    steps: &[WhyStep<'_>],
) -> Result<Vec<Row>, AllocError>
    requires labels { AreLabels labels.now }
    requires sides { labels.now.sides ≡ settings.now.split }
    ensures { IfOk result (λ rows. map row_text rows.items ≡ map (spec.row_of (packages_of labels.now) (settings_text P.holds settings.now)) (filter relation.is_shown (map why_text steps.now))) }
{
    let mut rows = Vec::with_capacity(alloc, steps.len())?;
    for step in steps {
        if is_shown(step) {
            rows.push(row_of(alloc, labels, settings, step)?)?;
        }
    }
    Ok(rows)
}
