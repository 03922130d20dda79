//! The data of a page about a build.
ghost use Rattle.std.specs.Prelude.{◌≡◌, IfOk, map};
ghost use Rattle.cargo_plans.specs.Plans.{IsPlanOf};
ghost use Rattle.cargo_plans.specs.WordsView.{words_text};
ghost use Rattle.cargo_plans.specs.plan_steps.PlanViews.{plan_text};
ghost use Rattle.cargo_workspaces.specs.WorkspaceView.{workspace_text};
ghost use Rattle.plan_rows.specs.platforms.HeldSpecs.{holds_on};
ghost use Rattle.plan_rows.specs.platforms.Views.{declared_text};
ghost use Rattle.feats_files.specs.FileViews.{file_text};
ghost use Rattle.feats_answers.specs.ReportTexts as spec;

use crate::plan_texts::text_of_units;
use crate::spec_texts::spec_text;
use cargo_plans::{Plan, PlanWords};
use cargo_workspaces::Workspace;
use feats_files::PlatformFile;
use feats_report::report_text;
use feats_words::Format;
use plan_rows::platforms::{DeclaredSpec, HeldSpecs};
use std::alloc::{AllocError, Global};

/// Returns the objects of the units of `plan`, for the target platforms of `files`.
fn units_of(
    alloc: Global,
    files: &[PlatformFile<'_>],
    workspace: &Workspace<'_>,
    plan: &Plan<'_>,
) -> Result<Vec<u8>, AllocError>
    ensures { IfOk result (λ text. text.items ≡ spec.units_of (map file_text files.now) (workspace_text workspace.now) (plan_text plan.now)) }
{
    text_of_units(alloc, Format::Json, files, workspace, plan.units())
}

/// Returns the objects of `specs`, each with the platforms on which it holds: of the host and the target platforms of `files`.
fn specs_of<'n>(
    alloc: Global,
    files: &[PlatformFile<'n>],
    specs: &[DeclaredSpec<'_>],
    words: &PlanWords<'_, 'n, HeldSpecs<'_>>,
) -> Result<Vec<u8>, AllocError>
    ensures { IfOk result (λ text. spec.AreSpecsOf (map file_text files.now) (map declared_text specs.now) (words_text holds_on words.now) text.items) }
{
    spec_text(alloc, Format::Json, specs, files, words.host, words.targets)
}

/// Returns the data of a page about `plan`, the plan of `words`. `specs` are the platform specs of the workspace, and `files` the files of
/// the target platforms. The only error is out of memory.
pub(crate) fn report_of<'n>(
    alloc: Global,
    files: &[PlatformFile<'n>],
    workspace: &Workspace<'_>,
    specs: &[DeclaredSpec<'_>],
    words: &PlanWords<'_, 'n, HeldSpecs<'_>>,
    plan: &Plan<'_>,
) -> Result<Vec<u8>, AllocError>
    requires plan { IsPlanOf (workspace_text workspace.now) (words_text holds_on words.now) (plan_text plan.now) }
    ensures { IfOk result (λ text. spec.IsReportText (map file_text files.now) (workspace_text workspace.now) (map declared_text specs.now) (words_text holds_on words.now) (plan_text plan.now) text.items) }
{
    let units = units_of(alloc, files, workspace, plan)?;
    let shown = specs_of(alloc, files, specs, words)?;
    report_text(alloc, workspace, words, plan, &units, &shown)
}
