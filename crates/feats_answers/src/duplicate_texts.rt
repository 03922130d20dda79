//! The text about what is built several times.
ghost use Rattle.std.specs.Prelude.{◌≡◌, IfOk, map};
ghost use Rattle.cargo_workspaces.specs.Views.{package_text};
ghost use Rattle.cargo_workspaces.specs.WorkspaceView.{workspace_text};
ghost use Rattle.cargo_plans.specs.WordsView.{words_text};
ghost use Rattle.feats_duplicate_lines.specs.Shown.{all_shown as all_of};
ghost use Rattle.feats_duplicate_lines.specs.Views.{shown_text};
ghost use Rattle.feats_files.specs.FileViews.{file_text};
ghost use Rattle.feats_duplicate_lines.specs.feats_duplicates.DuplicatesView.{duplicates_text as found_text};
ghost use Rattle.feats_duplicate_lines.specs.feats_duplicates.MemberPlans.{ArePlansAlone};
ghost use Rattle.feats_duplicate_lines.specs.feats_duplicates.Views.{member_plan_text};
ghost use Rattle.feats_duplicate_lines.specs.feats_duplicates.DisagreementViews.{disagreement_text};
ghost use Rattle.plan_rows.specs.platforms.HeldSpecs.{holds_on};
ghost use Rattle.cargo_plans.specs.plan_steps.PlanViews.{plan_text};
ghost use Rattle.feats_answers.specs.DuplicateTexts as spec;
ghost use Rattle.feats_answers.specs.PlanTexts as names;

use crate::plan_texts::target_names;
use cargo_plans::{Plan, PlanWords};
use cargo_workspaces::{Package, Workspace};
use feats_duplicate_lines::{
    Disagreement, Duplicates, MemberPlan, Shown, all_shown, disagreements_of, duplicate_lines,
    duplicate_objects, duplicates_of, plans_alone,
};
use feats_files::PlatformFile;
use feats_words::Format;
use plan_rows::platforms::HeldSpecs;
use plan_whys::links::unit_links;
use std::alloc::{AllocError, Global};

/// What is asked about duplicates, and the form of the answer.
#[derive(Clone, Copy)]
pub(crate) struct DuplicatesQuestion {
    pub(crate) format: Format,
    /// Whether the question is also about the plans of the selected members alone.
    pub(crate) alone: bool,
    /// Whether it is also about packages with the same features in several places.
    pub(crate) places: bool,
}

/// Returns the text of `shown`.
fn text_of(
    alloc: Global,
    format: Format,
    packages: &[Package<'_>],
    shown: &[Shown<'_, '_, '_>],
) -> Result<Vec<u8>, AllocError>
    ensures { IfOk result (λ text. text.items ≡ spec.duplicates_text format (map package_text packages.now) (map shown_text shown.now)) }
{
    match format {
        Format::Text => Ok(duplicate_lines(alloc, packages, shown)?.into_bytes()),
        Format::Json => duplicate_objects(alloc, shown),
    }
}

/// Returns the text about `found`, which are duplicates beside `plans`. `names` are those of the target platforms, and `disagreements`
/// the packages on which members disagree after they have got lines for them.
fn text_of_found(
    alloc: Global,
    format: Format,
    names: &[&str],
    packages: &[Package<'_>],
    found: &Duplicates<'_, '_>,
    disagreements: &[Disagreement],
    plans: &[MemberPlan<'_>],
) -> Result<Vec<u8>, AllocError>
    ensures { IfOk result (λ text. text.items ≡ spec.duplicates_text format (map package_text packages.now)
        (all_of (map (λ t. t.now) names.now) (map package_text packages.now) (found_text found.now) (map disagreement_text disagreements.now) (map member_plan_text plans.now))) }
{
    let shown = all_shown(alloc, names, packages, found, disagreements, plans)?;
    text_of(alloc, format, packages, &shown)
}

/// Returns the text about `found`, which are duplicates beside `plans`, with what members disagree on after they have got lines.
fn text_of_joined(
    alloc: Global,
    format: Format,
    names: &[&str],
    workspace: &Workspace<'_>,
    words: &PlanWords<'_, '_, HeldSpecs<'_>>,
    found: &Duplicates<'_, '_>,
    plans: &[MemberPlan<'_>],
) -> Result<Vec<u8>, AllocError>
    ensures { IfOk result (λ text. spec.IsTextOfFound format (map (λ t. t.now) names.now) (workspace_text workspace.now) (words_text holds_on words.now) (found_text found.now) (map member_plan_text plans.now) text.items) }
{
    let disagreements = disagreements_of(alloc, workspace, words, names, &found.alone)?;
    let packages = workspace.packages();
    text_of_found(alloc, format, names, packages, found, &disagreements, plans)
}

/// Returns the text about the duplicates of `plan`, beside `plans`.
fn text_of_plan(
    alloc: Global,
    asked: DuplicatesQuestion,
    names: &[&str],
    workspace: &Workspace<'_>,
    words: &PlanWords<'_, '_, HeldSpecs<'_>>,
    plan: &Plan<'_>,
    plans: &[MemberPlan<'_>],
) -> Result<Vec<u8>, AllocError>
    ensures { IfOk result (λ text. spec.IsTextOfPlan asked.format asked.places (map (λ t. t.now) names.now) (workspace_text workspace.now) (words_text holds_on words.now) (plan_text plan.now) (map member_plan_text plans.now) text.items) }
{
    let links = unit_links(alloc, plan)?;
    let found = duplicates_of(
        alloc,
        workspace.packages(),
        names,
        asked.places,
        plan.units(),
        &links,
        plans,
    )?;
    let text = text_of_joined(alloc, asked.format, names, workspace, words, &found, plans);
    drop(found);
    text
}

/// Returns the plans of the selected members alone.
fn plans_of<'w>(
    alloc: Global,
    workspace: &'w Workspace<'_>,
    words: &PlanWords<'w, '_, HeldSpecs<'_>>,
) -> Result<Vec<MemberPlan<'w>>, AllocError>
    ensures { IfOk result (λ plans. ArePlansAlone (workspace_text workspace.now) (words_text holds_on words.now) (map member_plan_text plans.items)) }
{
    match plans_alone(alloc, workspace, words) {
        Ok(plans) => Ok(plans),
        Err(_) => Err(AllocError),
    }
}

/// Returns the plans of the selected members alone, if `alone` is true.
fn plans_beside<'w>(
    alloc: Global,
    alone: bool,
    workspace: &'w Workspace<'_>,
    words: &PlanWords<'w, '_, HeldSpecs<'_>>,
) -> Result<Vec<MemberPlan<'w>>, AllocError>
    ensures { IfOk result (λ plans. spec.ArePlansBeside alone (workspace_text workspace.now) (words_text holds_on words.now) (map member_plan_text plans.items)) }
{
    if alone {
        plans_of(alloc, workspace, words)
    } else {
        Ok(Vec::new(alloc))
    }
}

/// Returns the text about what `plan` builds several times, which is the plan of `words`, as `asked` says.
pub(crate) fn duplicates_text<'w>(
    alloc: Global,
    asked: DuplicatesQuestion,
    files: &[PlatformFile<'_>],
    workspace: &'w Workspace<'_>,
    words: &PlanWords<'w, '_, HeldSpecs<'_>>,
    plan: &Plan<'_>,
) -> Result<Vec<u8>, AllocError>
    ensures { IfOk result (λ text. spec.IsDuplicatesText asked.format asked.alone asked.places (map file_text files.now) (workspace_text workspace.now) (words_text holds_on words.now) (plan_text plan.now) text.items) }
{
    let names = target_names(alloc, files)?;
    let plans = plans_beside(alloc, asked.alone, workspace, words)?;
    text_of_plan(alloc, asked, &names, workspace, words, plan, &plans)
}
