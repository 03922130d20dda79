//! The graph of the features that are on in a plan.
ghost use Rattle.std.specs.Prelude.{◌≡◌, IfOk, map, string_bytes};
ghost use Rattle.cargo_workspaces.specs.WorkspaceView.{workspace_text};
ghost use Rattle.feats_tree.specs.dots.Views.{node_text};
ghost use Rattle.cargo_plans.specs.plan_steps.PlanViews.{plan_text};
ghost use Rattle.plan_whys.specs.StepViews.{spot_text};
ghost use Rattle.feats_tree.specs.features.Dots as spec;

use crate::dots::{DotNode, dot_text};
use crate::features::commands::is_command;
use crate::features::links::shown_links;
use cargo_plans::plan_steps::Plan;
use cargo_workspaces::Workspace;
use feats_why::spot_labels;
use plan_whys::links::{Side, Spot, on_spots, spot_links};
use std::alloc::{AllocError, Global};

/// Returns the number of the cluster of `spot`: the target side, the host side, or none of them for a command feature.
fn cluster_of(spot: Spot<'_>) -> usize
    ensures { result ≡ spec.cluster_of (spot_text spot.entry) }
{
    if is_command(spot.label) {
        return 2;
    }
    match spot.side {
        Side::Target => 0,
        Side::Host => 1,
    }
}

/// Returns the nodes of `spots`, which have these labels.
fn nodes_of<'t>(
    alloc: Global,
    spots: &[Spot<'_>],
    labels: &'t [String],
) -> Result<Vec<DotNode<'t>>, AllocError>
    ensures { IfOk result (λ nodes. map node_text nodes.items ≡ spec.nodes_with (map spot_text spots.now) (map string_bytes labels.now)) }
{
    let mut nodes = Vec::with_capacity(alloc, spots.len())?;
    for (spot, label) in spots.iter().zip(labels) {
        nodes.push(DotNode {
            cluster: cluster_of(*spot),
            title: label.as_str(),
        })?;
    }
    Ok(nodes)
}

/// Returns the graph of `spots` with these labels, by all `links` between them.
fn labelled_dot(
    alloc: Global,
    spots: &[Spot<'_>],
    labels: &[String],
    links: &[(usize, usize)],
) -> Result<Vec<u8>, AllocError>
    ensures { IfOk result (λ text. text.items ≡ spec.dot_of (map spot_text spots.now) (map string_bytes labels.now) links.now) }
{
    let nodes = nodes_of(alloc, spots, labels)?;
    let shown = shown_links(alloc, spots, links)?;
    dot_text(alloc, &["target", "host"], &nodes, &shown)
}

/// Returns the graph of the features that are on in `plan` in the language of Graphviz: a node for each, in the cluster of its side, and an
/// edge to each that it turns on. If `sides` is true, ` (host)` follows what is on for the host. An allocation's failure is the only error.
pub fn feature_dot(
    alloc: Global,
    sides: bool,
    workspace: &Workspace<'_>,
    plan: &Plan<'_>,
) -> Result<Vec<u8>, AllocError>
    ensures { IfOk result (λ text. spec.IsFeatureDot sides (workspace_text workspace.now).packages (plan_text plan.now) text.items) }
{
    let spots = on_spots(alloc, plan)?;
    let links = spot_links(alloc, plan)?;
    let labels = spot_labels(alloc, workspace, sides, &spots)?;
    labelled_dot(alloc, &spots, &labels, &links)
}
