//! The answer to `diff`.
ghost use Rattle.std.specs.Prelude.{◌≡◌, IfOk, map};
ghost use Rattle.cargo_plans.specs.Plans.{IsPlanOf};
ghost use Rattle.cargo_workspaces.specs.WorkspaceView.{workspace_text};
ghost use Rattle.feats_diff.specs.texts.Views.{difference_text};
ghost use Rattle.feats_answers.specs.AnswerViews.{answer_text};
ghost use Rattle.feats.specs.comparisons.differences.Answers as spec;
ghost use Rattle.feats.specs.comparisons.differences.Shown as shown_as;
ghost use Rattle.feats.specs.comparisons.differences.Views.{build_text, whys_text};
ghost use Rattle.feats_diff.specs.changes.Views.{differences_text};

use crate::comparisons::differences::builds::Build;
use crate::comparisons::differences::forms::Form;
use crate::comparisons::differences::parts::parts_of;
use crate::comparisons::differences::shown::{push_changes, push_comes, push_gone};
use crate::comparisons::differences::whys::{Whys, whys_of};
use cargo_workspaces::Workspace;
use feats_answers::Answer;
use feats_diff::changes::{Differences, differences_between};
use feats_diff::texts::{Difference, difference_lines, difference_objects};
use feats_report::differences_text;
use std::alloc::{AllocError, Global};

/// Returns what is shown of `differences`, with the last steps of each `why`.
fn all_shown<'u, 'v, 'w>(
    alloc: Global,
    differences: &Differences<'u, 'v, 'w>,
    whys: &Whys,
) -> Result<Vec<Difference<'u, 'v, 'w>>, AllocError>
    ensures { IfOk result (λ shown. map difference_text shown.items ≡ shown_as.all_shown (differences_text differences.now) (whys_text whys.now)) }
{
    let mut shown = Vec::new(alloc);
    push_comes(alloc, &mut shown, &differences.comes, &whys.parts)?;
    push_gone(&mut shown, &differences.gone)?;
    push_changes(alloc, &mut shown, true, &differences.moved, &whys.moved)?;
    push_changes(alloc, &mut shown, false, &differences.kept, &whys.kept)?;
    Ok(shown)
}

/// Returns the data of a page that shows `shown`.
fn page_text(alloc: Global, shown: &[Difference<'_, '_, '_>]) -> Result<Vec<u8>, AllocError>
    ensures { IfOk result (λ text. text.items ≡ spec.page_text (map difference_text shown.now)) }
{
    let objects = difference_objects(alloc, shown)?;
    differences_text(alloc, &objects)
}

/// Returns the text of `shown`, which are differences between packages of `old` and of `new`, in `form`.
fn text_in(
    alloc: Global,
    form: Form,
    old: &Workspace<'_>,
    new: &Workspace<'_>,
    shown: &[Difference<'_, '_, '_>],
) -> Result<Vec<u8>, AllocError>
    ensures { IfOk result (λ text. text.items ≡ spec.text_in form (workspace_text old.now).packages (workspace_text new.now).packages (map difference_text shown.now)) }
{
    match form {
        Form::Lines => {
            Ok(difference_lines(alloc, old.packages(), new.packages(), shown)?.into_bytes())
        }
        Form::Objects => difference_objects(alloc, shown),
        Form::Page => page_text(alloc, shown),
    }
}

/// Returns the text of `differences`, with the last steps of each `why` in `new`.
fn text_of(
    alloc: Global,
    form: Form,
    old: &Build<'_, '_, '_, '_, '_>,
    new: &Build<'_, '_, '_, '_, '_>,
    differences: &Differences<'_, '_, '_>,
) -> Result<Vec<u8>, AllocError>
    requires plan { IsPlanOf (build_text new.now).workspace (build_text new.now).words (build_text new.now).plan }
    ensures { IfOk result (λ text. spec.IsDiffText form (build_text old.now) (build_text new.now) (differences_text differences.now) text.items) }
{
    let whys = whys_of(alloc, new, differences)?;
    let shown = all_shown(alloc, differences, &whys)?;
    text_in(alloc, form, old.workspace, new.workspace, &shown)
}

/// Returns the answer to `diff`: what differs between the plans of `old` and `new`, with the last step of why each part and feature
/// that comes is on in `new`. It is negative if they differ. The only error is out of memory.
pub fn run_diff<'b, 'v, 'w>(
    alloc: Global,
    form: Form,
    old: &Build<'b, 'v, 'w, '_, '_>,
    new: &Build<'b, 'v, 'w, '_, '_>,
) -> Result<Answer, AllocError>
    requires plan { IsPlanOf (build_text new.now).workspace (build_text new.now).words (build_text new.now).plan }
    ensures { IfOk result (λ answer. spec.IsDiffAnswer form (build_text old.now) (build_text new.now) (answer_text answer)) }
{
    let old_parts = parts_of(alloc, old)?;
    let new_parts = parts_of(alloc, new)?;
    let differences = differences_between(alloc, &old_parts, &new_parts)?;
    let text = text_of(alloc, form, old, new, &differences)?;
    Ok(Answer {
        text,
        is_negative: !differences.are_equal(),
    })
}
