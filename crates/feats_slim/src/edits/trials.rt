//! Edits that are tried: the plan of the edited workspace.
ghost use Rattle.std.specs.Prelude.{◌≡◌, IfOk, map};
ghost use Rattle.cargo_workspaces.specs.Views.{package_text};
ghost use Rattle.cargo_workspaces.specs.WorkspaceView.{workspace_text};
ghost use Rattle.cargo_plans.specs.WordsView.{words_text};
ghost use Rattle.feats_slim.specs.edits.Losses.{losses_of as losses_by};
ghost use Rattle.cargo_plans.specs.plan_steps.PlanViews.{plan_text};
ghost use Rattle.cargo_plans.specs.plan_units.UnitViews.{unit_text};
ghost use Rattle.cargo_manifests.specs.inherited.InheritanceView.{inheritance_text};
ghost use Rattle.cargo_manifests.specs.EditViews.{edit_text};
ghost use Rattle.feats_slim.specs.edits.Slims.{AreTried, HasNumbersOf, IsTried, IsTriedIn, nothing};
ghost use Rattle.feats_slim.specs.edits.SlimViews.{slim_text};

use crate::edits::losses::losses_of;
use crate::edits::lost::Slim;
use cargo_manifests::{Edit, Inheritance, edited};
use cargo_plans::{Plan, PlanFault, PlanWords, StepFault, Unit, plan};
use cargo_workspaces::{Package, Workspace};
use plan_rows::Platform;
use std::alloc::{AllocError, Global};

/// Returns `edit` with the numbers of what falls away from the units `before` to the units `after`.
fn counted<'v>(
    alloc: Global,
    packages: &[Package<'_>],
    before: &[Unit<'_>],
    edit: &Edit<'v>,
    after: &[Unit<'_>],
) -> Result<Slim<'v>, AllocError>
    ensures edit { IfOk result (λ slim. (slim_text slim).edit ≡ edit_text edit.now) }
    ensures numbers { IfOk result (λ slim. HasNumbersOf (losses_by (map package_text packages.now) (map unit_text before.now) (map unit_text after.now)) (slim_text slim)) }
{
    let losses = losses_of(alloc, packages, before, after)?;
    Ok(Slim {
        edit: *edit,
        packages: losses.packages.len(),
        features: losses.features.len(),
    })
}

/// Returns `edit` with the numbers of what falls away from the units `before` to the plan `after`. `after` is dropped, because it also has the
/// visits of the steps.
fn counted_by<'v>(
    alloc: Global,
    packages: &[Package<'_>],
    before: &[Unit<'_>],
    edit: &Edit<'v>,
    after: Plan<'_>,
) -> Result<Slim<'v>, AllocError>
    ensures edit { IfOk result (λ slim. (slim_text slim).edit ≡ edit_text edit.now) }
    ensures numbers { IfOk result (λ slim. HasNumbersOf (losses_by (map package_text packages.now) (map unit_text before.now) (plan_text after.entry).units) (slim_text slim)) }
{
    let slim = counted(alloc, packages, before, edit, after.units());
    drop(after);
    slim
}

/// Returns `edit` with the numbers 0.
fn without_loss<'v>(edit: &Edit<'v>) -> Slim<'v>
    ensures edit { (slim_text result).edit ≡ edit_text edit.now }
    ensures numbers { HasNumbersOf nothing (slim_text result) }
{
    Slim {
        edit: *edit,
        packages: 0,
        features: 0,
    }
}

/// Returns `edit` with the numbers of what falls away from the units `before` to the plan of `words` in `edited`. If `words` have no plan
/// there, the numbers are 0.
fn tried_in<'w, 'v, P: Platform>(
    alloc: Global,
    packages: &[Package<'_>],
    edited: &'w Workspace<'_>,
    words: &PlanWords<'w, '_, P>,
    before: &[Unit<'_>],
    edit: &Edit<'v>,
) -> Result<Slim<'v>, AllocError>
    ensures edit { IfOk result (λ slim. (slim_text slim).edit ≡ edit_text edit.now) }
    ensures tried { IfOk result (λ slim. IsTriedIn (map package_text packages.now) (workspace_text edited.now) (words_text P.holds words.now) (map unit_text before.now) (slim_text slim)) }
{
    match plan(alloc, edited, words) {
        Ok(after) => counted_by(alloc, packages, before, edit, after),
        Err(PlanFault::Steps(StepFault::Memory)) => Err(AllocError),
        Err(_) => Ok(without_loss(edit)),
    }
}

/// Returns a copy of `words` that lives as long as the borrow `edited`.
fn words_in<'s, 'w: 's, 'n, P: Platform>(
    edited: &'s Workspace<'_>,
    words: &PlanWords<'w, 'n, P>,
) -> PlanWords<'s, 'n, P>
    ensures { words_text P.holds result ≡ words_text P.holds words.now }
{
    let _ = edited;
    PlanWords {
        selection: words.selection,
        choice: words.choice,
        host: words.host,
        targets: words.targets,
    }
}

/// Returns `edit` with the numbers of what falls away from the units `before` to the plan of `words` after `edit` of `workspace`.
fn tried<'w, 'v, P: Platform>(
    alloc: Global,
    workspace: &Workspace<'_>,
    inheritance: &Inheritance<'_>,
    words: &PlanWords<'w, '_, P>,
    before: &[Unit<'_>],
    edit: &Edit<'v>,
) -> Result<Slim<'v>, AllocError>
    ensures edit { IfOk result (λ slim. (slim_text slim).edit ≡ edit_text edit.now) }
    ensures tried { IfOk result (λ slim. IsTried (workspace_text workspace.now) (inheritance_text inheritance.now) (words_text P.holds words.now) (map unit_text before.now) (slim_text slim)) }
{
    let edited = edited(alloc, workspace, inheritance, edit)?;
    let here = words_in(&edited, words);
    tried_in(alloc, workspace.packages(), &edited, &here, before, edit)
}

/// Returns `edits`, each with the numbers of what falls away from the units `before` to the plan of `words` after it.
pub(crate) fn all_tried<'w, 'v, P: Platform>(
    alloc: Global,
    workspace: &Workspace<'_>,
    inheritance: &Inheritance<'_>,
    words: &PlanWords<'w, '_, P>,
    before: &[Unit<'_>],
    edits: &[Edit<'v>],
) -> Result<Vec<Slim<'v>>, AllocError>
    ensures { IfOk result (λ tried. AreTried (workspace_text workspace.now) (inheritance_text inheritance.now) (words_text P.holds words.now) (map unit_text before.now) (map edit_text edits.now) (map slim_text tried.items)) }
{
    let mut all = Vec::with_capacity(alloc, edits.len())?;
    for edit in edits {
        all.push(tried(alloc, workspace, inheritance, words, before, edit)?)?;
    }
    Ok(all)
}
