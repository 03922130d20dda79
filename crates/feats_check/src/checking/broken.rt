//! The text of broken rules.
ghost use Rattle.std.specs.Prelude.{IfOk, OnOk, ◌≡◌, ◌++◌, flat_map, map};
ghost use Rattle.cargo_plans.specs.WordsView.{words_text};
ghost use Rattle.cargo_workspaces.specs.WorkspaceView.{workspace_text};
ghost use Rattle.plan_rows.specs.platforms.HeldSpecs.{holds_on};
ghost use Rattle.plan_whys.specs.StepViews.{found_text, spot_text};
ghost use Rattle.feats_check.specs.checking.Broken.{ArePrinted, broken_in};
ghost use Rattle.feats_check.specs.checking.QuestionViews.{question_text};
ghost use Rattle.feats_check.specs.checking.Scenes.{IsScene};
ghost use Rattle.feats_check.specs.checking.Whys as spec;
ghost use Rattle.feats_check.specs.checking.inner.PlannedViews.{scene_by};
ghost use Rattle.feats_check.specs.checking.inner.RuleTexts.{texts_by};
ghost use Rattle.feats_policies.specs.checks.Views.{verdict_text};

use crate::checking::lines::rules_lines;
use crate::checking::objects::rules_objects;
use crate::checking::planned::Planned;
use crate::checking::question::PolicyQuestion;
use cargo_workspaces::Workspace;
use feats_policies::checks::Verdict;
use feats_words::Format;
use plan_whys::{Spot, WhyStep, why_each};
use std::alloc::{AllocError, Global};

/// Appends `more` to `spots`.
fn push_spots<'w>(spots: &mut Vec<Spot<'w>>, more: &[Spot<'w>]) -> Result<(), AllocError>
    ensures { OnOk result (map spot_text spots.new.items ≡ map spot_text spots.old.items ++ map spot_text more.now) }
{
    for spot in more {
        spots.push(*spot)?;
    }
    Ok(())
}

/// Returns the spots of all `verdicts`, in their order.
fn spots_of<'w>(alloc: Global, verdicts: &[Verdict<'w>]) -> Result<Vec<Spot<'w>>, AllocError>
    ensures { IfOk result (λ spots. map spot_text spots.items ≡ flat_map (λ v. v.spots) (map verdict_text verdicts.now)) }
{
    let mut spots = Vec::new(alloc);
    for verdict in verdicts {
        push_spots(&mut spots, &verdict.spots)?;
    }
    Ok(spots)
}

/// Returns the joined texts of `verdicts`, which are about the plan of `planned`. `founds` explain their spots, in their order.
fn text_with(
    alloc: Global,
    asked: PolicyQuestion<'_, '_, '_, '_>,
    workspace: &Workspace<'_>,
    planned: Planned<'_, '_, '_, '_, '_>,
    verdicts: &[Verdict<'_>],
    founds: &[Option<Vec<WhyStep<'_>>>],
) -> Result<Vec<u8>, AllocError>
    ensures { IfOk result (λ text. text.items ≡ texts_by (spec.rule_text (question_text asked.entry) planned.entry.judged (workspace_text workspace.now).packages (words_text holds_on planned.entry.words.now)) (map verdict_text verdicts.now) (map found_text founds.now)) }
{
    match asked.format {
        Format::Text => rules_lines(alloc, asked.file, workspace, planned, verdicts, founds),
        Format::Json => rules_objects(alloc, workspace, planned, verdicts, founds),
    }
}

/// Returns the joined texts of `verdicts`, which are about the plan of `planned`. The build selects the packages `selected`. One walk explains
/// the spots of all `verdicts`.
pub(crate) fn text_of_verdicts(
    alloc: Global,
    asked: PolicyQuestion<'_, '_, '_, '_>,
    workspace: &Workspace<'_>,
    selected: &[usize],
    planned: Planned<'_, '_, '_, '_, '_>,
    verdicts: &[Verdict<'_>],
) -> Result<Vec<u8>, AllocError>
    requires { IsScene (scene_by (workspace_text workspace.now) selected.now (question_text asked) planned) }
    ensures { IfOk result (λ text. ArePrinted (question_text asked.entry) (map (broken_in (scene_by (workspace_text workspace.now) selected.now (question_text asked.entry) planned.entry)) (map verdict_text verdicts.now)) text.items) }
{
    if verdicts.is_empty() {
        return Ok(Vec::new(alloc));
    }
    let spots = spots_of(alloc, verdicts)?;
    let founds = why_each(alloc, workspace, planned.words, planned.plan, &spots)?;
    text_with(alloc, asked, workspace, planned, verdicts, &founds)
}
