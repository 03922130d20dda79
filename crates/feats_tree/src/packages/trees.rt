//! Trees of the packages that a plan builds.
ghost use Rattle.std.specs.Prelude.{◌≡◌, ◌++◌, ◌∷◌, [], ◌==◌, IfOk, OnOk, map, if◌then◌else◌};
ghost use Rattle.cargo_workspaces.specs.Views.{package_text, texts};
ghost use Rattle.cargo_workspaces.specs.WorkspaceView.{workspace_text};
ghost use Rattle.cargo_plans.specs.plan_steps.PlanViews.{plan_text};
ghost use Rattle.cargo_plans.specs.plan_units.UnitViews.{unit_text};
ghost use Rattle.feats_tree.specs.packages.Trees as spec;

use crate::packages::tree_texts::{UnitTitles, unit_tree};
use crate::trees::reversed;
use cargo_plans::plan_steps::{Plan, Unit};
use cargo_workspaces::Workspace;
use feats_words::Format;
use plan_whys::links::{root_units, unit_links};
use std::alloc::{AllocError, Global};

/// Returns what is shown of the units of `plan`.
fn shown<'u, 'v, 'w>(
    names: &'u [&'u str],
    workspace: &'u Workspace<'v>,
    plan: &'u Plan<'w>,
) -> UnitTitles<'u, 'v, 'w>
    ensures names { texts result.names.now ≡ texts names.entry.now }
    ensures packages { map package_text result.packages.now ≡ (workspace_text workspace.entry.now).packages }
    ensures units { map unit_text result.units.now ≡ (plan_text plan.entry.now).units }
{
    UnitTitles {
        names,
        packages: workspace.packages(),
        units: plan.units(),
    }
}

/// Returns the trees of what `plan` builds: the roots are what is started, and below each package is what it depends on. `names` are those
/// of the target platforms. `limit` is the greatest depth that is shown, as in `titled_text`. Returns an error only if out of memory.
pub fn package_tree(
    alloc: Global,
    form: Format,
    names: &[&str],
    workspace: &Workspace<'_>,
    plan: &Plan<'_>,
    limit: Option<usize>,
) -> Result<Vec<u8>, AllocError>
    ensures { IfOk result (λ text. spec.IsPackageTree form (texts names.now) (workspace_text workspace.now).packages (plan_text plan.now) limit text.items) }
{
    let links = unit_links(alloc, plan)?;
    let roots = root_units(alloc, plan)?;
    unit_tree(
        alloc,
        form,
        &links,
        &roots,
        limit,
        shown(names, workspace, plan),
    )
}

/// Appends `number` if `unit` is one of package `package`.
fn push_if(
    found: &mut Vec<usize>,
    number: usize,
    unit: &Unit<'_>,
    package: usize,
) -> Result<(), AllocError>
    ensures { OnOk result (found.new.items ≡ found.old.items ++ (if (unit_text unit.now).number == «package» then number ∷ [] else [])) }
{
    if unit.package == package {
        found.push(number)?;
    }
    Ok(())
}

/// Returns the numbers of the units of package `package`, in all places.
fn units_of(alloc: Global, units: &[Unit<'_>], package: usize) -> Result<Vec<usize>, AllocError>
    ensures { IfOk result (λ found. found.items ≡ spec.units_of «package» (map unit_text units.now)) }
{
    let mut found = Vec::new(alloc);
    for (number, unit) in units.iter().enumerate() {
        push_if(&mut found, number, unit, package)?;
    }
    Ok(found)
}

/// Returns the trees of the units of package `package`, where below each package is what depends on it. `names` are those of the target
/// platforms. `limit` is the greatest depth that is shown, as in `titled_text`. The text is empty if the package isn't built. Returns an
/// error only if out of memory.
pub fn inverted_package_tree(
    alloc: Global,
    form: Format,
    names: &[&str],
    workspace: &Workspace<'_>,
    plan: &Plan<'_>,
    package: usize,
    limit: Option<usize>,
) -> Result<Vec<u8>, AllocError>
    ensures { IfOk result (λ text. spec.IsInvertedTree form (texts names.now) (workspace_text workspace.now).packages (plan_text plan.now) «package» limit text.items) }
{
    let links = unit_links(alloc, plan)?;
    let turned = reversed(alloc, &links)?;
    let roots = units_of(alloc, plan.units(), package)?;
    unit_tree(
        alloc,
        form,
        &turned,
        &roots,
        limit,
        shown(names, workspace, plan),
    )
}
