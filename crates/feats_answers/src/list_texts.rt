//! The text about the features of a package.
ghost use Rattle.std.specs.Prelude.{◌≡◌, ◌<◌, Ok, IfOk, IfErr, length, option_map, slice_get};
ghost use Rattle.cargo_workspaces.specs.Views.{package_text};
ghost use Rattle.cargo_workspaces.specs.WorkspaceView.{workspace_text};
ghost use Rattle.plan_names.specs.Faults.{package_named};
ghost use Rattle.cargo_plans.specs.built_parts.Built.{is_part_built};
ghost use Rattle.cargo_plans.specs.built_parts.BuiltViews.{is_built_in};
ghost use Rattle.cargo_plans.specs.plan_steps.PlanViews.{plan_text};
ghost use Rattle.feats_files.specs.Messages.{Says};
ghost use Rattle.feats_answers.specs.ListTexts as spec;
ghost use Rattle.feats_answers.specs.NameMessages.{IsNameRefusal};

use crate::name_messages::name_refused;
use cargo_plans::Plan;
use cargo_plans::built_parts::BuiltParts;
use cargo_workspaces::{Package, Workspace};
use feats_files::Fault;
use feats_list::features::{feature_lines, feature_objects};
use feats_words::Format;
use plan_names::package_named;
use std::alloc::{AllocError, Global};

/// Returns the text about `package`, which is package `ix`, in the plan whose built parts are `parts`.
fn features_by(
    alloc: Global,
    format: Format,
    parts: &BuiltParts<'_>,
    ix: usize,
    package: &Package<'_>,
) -> Result<Vec<u8>, AllocError>
    ensures { IfOk result (λ text. text.items ≡ spec.feature_text format (is_built_in parts.now) ix (package_text «package».now)) }
{
    match format {
        Format::Text => Ok(feature_lines(alloc, parts, ix, package)?.into_bytes()),
        Format::Json => feature_objects(alloc, parts, ix, package),
    }
}

/// Returns the text about `package`, which is package `ix`.
fn package_features(
    alloc: Global,
    format: Format,
    split: bool,
    plan: &Plan<'_>,
    ix: usize,
    package: &Package<'_>,
) -> Result<Vec<u8>, AllocError>
    ensures { IfOk result (λ text. text.items ≡ spec.feature_text format (is_part_built split (plan_text plan.now)) ix (package_text «package».now)) }
{
    let parts = BuiltParts::of_plan(alloc, split, plan)?;
    features_by(alloc, format, &parts, ix, package)
}

/// Returns the number of the package that `word` names.
pub(crate) fn number_of(
    alloc: Global,
    workspace: &Workspace<'_>,
    word: &str,
) -> Result<usize, Fault>
    ensures number { IfOk result (λ p. package_named (workspace_text workspace.now).packages word.now ≡ Ok p) }
    ensures within { IfOk result (λ p. p < length (workspace_text workspace.now).packages) }
    ensures fault { IfErr result (λ fault. Says fault (IsNameRefusal (workspace_text workspace.now).packages (package_named (workspace_text workspace.now).packages word.now))) }
{
    match package_named(alloc, workspace, word) {
        Ok(number) => Ok(number),
        Err(fault) => Err(name_refused(alloc, workspace, fault)),
    }
}

/// Returns package `ix`.
fn package_at<'p, 'v>(workspace: &'p Workspace<'v>, ix: usize) -> Option<&'p Package<'v>>
    ensures { option_map (λ p. package_text p.now) result ≡ slice_get (workspace_text workspace.now).packages ix }
{
    workspace.packages().get(ix)
}

/// Returns the text about the features of the package that `word` names.
pub(crate) fn list_text(
    alloc: Global,
    format: Format,
    workspace: &Workspace<'_>,
    split: bool,
    plan: &Plan<'_>,
    word: &str,
) -> Result<Vec<u8>, Fault>
    ensures text { IfOk result (λ text. spec.IsListText format (workspace_text workspace.now) split (plan_text plan.now) word.now text.items) }
    ensures fault { IfErr result (λ fault. Says fault (IsNameRefusal (workspace_text workspace.now).packages (package_named (workspace_text workspace.now).packages word.now))) }
{
    let ix = number_of(alloc, workspace, word)?;
    match package_at(workspace, ix) {
        Some(package) => Ok(package_features(alloc, format, split, plan, ix, package)?),
        None => Err(Fault::Memory),
    }
}
