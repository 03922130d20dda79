//! The summary of a plan.
ghost use Rattle.std.specs.Prelude.{◌≡◌, IfOk, Ok, map};
ghost use Rattle.cargo_plans.specs.plan_steps.PlanViews.{plan_text};
ghost use Rattle.cargo_plans.specs.plan_units.UnitViews.{unit_text};
ghost use Rattle.cargo_workspaces.specs.WorkspaceView.{workspace_text};
ghost use Rattle.feats_summary.specs.Summaries.{IsPlanSummary, IsSummaryWith};
ghost use Rattle.feats_summary.specs.inner.Views.{known_text};
ghost use Rattle.json.specs.Value.{value_view};
ghost use Rattle.plan_words.specs.Choices as choices;
ghost use Rattle.plan_words.specs.Selections.{selection_text};

use crate::direct::direct_units;
use crate::packages::{Known, packages_by};
use crate::places::places_in;
use build_summaries::summary_text;
use cargo_plans::{Plan, Selection, Unit};
use cargo_workspaces::Workspace;
use json::Value;
use plan_whys::links::unit_links;
use plan_words::{Chosen, choose};
use std::alloc::{AllocError, Global};

/// Returns what `selection` selects, which isn't refused.
fn chosen_by<'w>(
    alloc: Global,
    workspace: &'w Workspace<'_>,
    selection: &Selection<'w>,
) -> Result<Chosen<'w>, AllocError>
    ensures { IfOk result (λ chosen. choices.choose (workspace_text workspace.now) (selection_text selection.now) ≡ Ok (choices.chosen_text chosen)) }
{
    match choose(alloc, workspace, selection) {
        Ok(chosen) => Ok(chosen),
        // The selection has a plan, so it isn't refused.
        Err(_) => Err(AllocError),
    }
}

/// Returns the summary of `units`, where `links` are those between them.
fn summary_with<'w>(
    alloc: Global,
    known: Known<'_, '_, 'w, '_>,
    links: &[(usize, usize)],
    units: &[Unit<'w>],
) -> Result<Vec<u8>, AllocError>
    ensures { IfOk result (λ text. IsSummaryWith (known_text known.entry) links.now (map unit_text units.now) text.items) }
{
    let direct = direct_units(alloc, known.members, units, links)?;
    let targets = packages_by(alloc, known, &direct, false, units)?;
    let hosts = packages_by(alloc, known, &direct, true, units)?;
    let text = summary_text(alloc, targets, hosts)?;
    Ok(text)
}

/// Returns the summary of `plan`, which is that of `selection`, as TOML in the form of the crate guppy-summaries. `document` is the document
/// that describes `workspace`. The only error is out of memory.
pub fn plan_summary<'w>(
    alloc: Global,
    document: &Value<'_>,
    workspace: &'w Workspace<'_>,
    selection: &Selection<'w>,
    plan: &Plan<'w>,
) -> Result<Vec<u8>, AllocError>
    ensures { IfOk result (λ text. IsPlanSummary (value_view document.now) (workspace_text workspace.now) (selection_text selection.now) (plan_text plan.now) text.items) }
{
    let chosen = chosen_by(alloc, workspace, selection)?;
    let places = places_in(alloc, document)?;
    let links = unit_links(alloc, plan)?;
    let known = Known {
        packages: workspace.packages(),
        members: workspace.members(),
        selected: &chosen.selected,
        places: &places,
        on: plan.on(),
        split: selection.split,
    };
    let text = summary_with(alloc, known, &links, plan.units())?;
    Ok(text)
}
