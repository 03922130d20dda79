//! Trees of the features that are on in a plan.
ghost use Rattle.std.specs.Prelude.{◌≡◌, IfOk, map};
ghost use Rattle.cargo_workspaces.specs.WorkspaceView.{workspace_text};
ghost use Rattle.cargo_plans.specs.plan_steps.PlanViews.{plan_text};
ghost use Rattle.feats_tree.specs.packages.Trees.{IsTreeText};
ghost use Rattle.plan_whys.specs.StepViews.{spot_text};
ghost use Rattle.feats_tree.specs.features.Links.{shown_links as links_shown};
ghost use Rattle.feats_tree.specs.features.Roots.{asked_spots as spots_asked, wanted_spots as spots_wanted};
ghost use Rattle.feats_tree.specs.features.Titles.{spot_titles};
ghost use Rattle.feats_tree.specs.features.Trees as spec;

use crate::features::links::shown_links;
use crate::features::roots::{asked_spots, wanted_spots};
use crate::features::titles::{Titled, spot_tree};
use crate::trees::reversed;
use cargo_plans::plan_steps::Plan;
use cargo_workspaces::Workspace;
use feats_words::Format;
use plan_whys::links::{Spot, on_spots, spot_links};
use std::alloc::{AllocError, Global};

/// Returns the text of the trees of what the command line turns on, by all `links` between the spots.
fn asked_tree(
    alloc: Global,
    form: Format,
    links: &[(usize, usize)],
    limit: Option<usize>,
    titled: Titled<'_, '_, '_>,
) -> Result<Vec<u8>, AllocError>
    ensures { IfOk result (λ text. IsTreeText form (links_shown (map spot_text titled.entry.spots.now) links.now) (spots_asked (map spot_text titled.entry.spots.now) links.now) limit (spot_titles (workspace_text titled.entry.workspace.now).packages titled.entry.sides (map spot_text titled.entry.spots.now)) text.items) }
{
    let roots = asked_spots(alloc, titled.spots, links)?;
    let shown = shown_links(alloc, titled.spots, links)?;
    spot_tree(alloc, form, &shown, &roots, limit, titled)
}

/// Returns the trees of the features that are on in `plan`: the roots are what the command line turns on, and below each is what it turns
/// on. If `sides` is true, ` (host)` follows what is on for the host. `limit` is the greatest depth that is shown, as in `titled_text`.
/// Returns an error only if out of memory.
pub fn feature_tree(
    alloc: Global,
    form: Format,
    sides: bool,
    workspace: &Workspace<'_>,
    plan: &Plan<'_>,
    limit: Option<usize>,
) -> Result<Vec<u8>, AllocError>
    ensures { IfOk result (λ text. spec.IsFeatureTree form sides (workspace_text workspace.now).packages (plan_text plan.now) limit text.items) }
{
    let spots = on_spots(alloc, plan)?;
    let links = spot_links(alloc, plan)?;
    let titled = Titled {
        sides,
        workspace,
        spots: &spots,
    };
    asked_tree(alloc, form, &links, limit, titled)
}

/// Returns the text of the trees of `roots`, over those of `links` that are shown, the other way round.
fn turned_tree(
    alloc: Global,
    form: Format,
    links: &[(usize, usize)],
    roots: &[usize],
    limit: Option<usize>,
    titled: Titled<'_, '_, '_>,
) -> Result<Vec<u8>, AllocError>
    ensures { IfOk result (λ text. spec.IsTurnedTree form (links_shown (map spot_text titled.entry.spots.now) links.now) roots.now limit (workspace_text titled.entry.workspace.now).packages titled.entry.sides (map spot_text titled.entry.spots.now) text.items) }
{
    let shown = shown_links(alloc, titled.spots, links)?;
    let turned = reversed(alloc, &shown)?;
    spot_tree(alloc, form, &turned, roots, limit, titled)
}

/// Returns the trees of those of `wanted` that are on in `plan`, where below each spot is what turns it on. If `sides` is true, ` (host)`
/// follows what is on for the host. `limit` is the greatest depth that is shown, as in `titled_text`. The text is empty if no part is on.
/// Returns an error only if out of memory.
pub fn inverted_feature_tree(
    alloc: Global,
    form: Format,
    sides: bool,
    workspace: &Workspace<'_>,
    plan: &Plan<'_>,
    wanted: &[Spot<'_>],
    limit: Option<usize>,
) -> Result<Vec<u8>, AllocError>
    ensures { IfOk result (λ text. spec.IsInvertedFeatureTree form sides (workspace_text workspace.now).packages (plan_text plan.now) (map spot_text wanted.now) limit text.items) }
{
    let spots = on_spots(alloc, plan)?;
    let links = spot_links(alloc, plan)?;
    let roots = wanted_spots(alloc, wanted, &spots)?;
    let titled = Titled {
        sides,
        workspace,
        spots: &spots,
    };
    turned_tree(alloc, form, &links, &roots, limit, titled)
}
