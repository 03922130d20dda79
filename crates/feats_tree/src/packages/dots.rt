//! The graph of the packages that a plan builds.
ghost use Rattle.std.specs.Prelude.{◌≡◌, ◌∷◌, IfOk, map, string_bytes};
ghost use Rattle.cargo_workspaces.specs.Views.{texts};
ghost use Rattle.cargo_workspaces.specs.WorkspaceView.{workspace_text};
ghost use Rattle.feats_tree.specs.dots.Views.{node_text};
ghost use Rattle.cargo_plans.specs.plan_steps.PlanViews.{plan_text};
ghost use Rattle.cargo_plans.specs.plan_units.UnitViews.{unit_text};
ghost use Rattle.feats_tree.specs.packages.Dots as spec;

use crate::dots::{DotNode, dot_text};
use crate::packages::titles::titles_of;
use cargo_plans::plan_steps::{Place, Plan, Unit};
use cargo_workspaces::Workspace;
use plan_whys::links::unit_links;
use std::alloc::{AllocError, Global};

/// Returns the number of the cluster of `place`, where there are `count` target platforms.
fn cluster_of(count: usize, place: Place) -> usize
    ensures { result ≡ spec.cluster_of count place }
{
    match place {
        Place::Host => count,
        Place::Target(number) => number,
    }
}

/// Returns the names of the clusters. `names` are those of the target platforms.
fn clusters_of<'n>(alloc: Global, names: &[&'n str]) -> Result<Vec<&'n str>, AllocError>
    ensures { IfOk result (λ clusters. texts clusters.items ≡ spec.clusters (texts names.now)) }
{
    let mut clusters = Vec::new(alloc);
    clusters.extend_from_slice(names)?;
    clusters.push("host")?;
    Ok(clusters)
}

/// Returns the nodes of `units`, which have these titles. There are `count` target platforms.
fn nodes_of<'t>(
    alloc: Global,
    count: usize,
    units: &[Unit<'_>],
    titles: &'t [String],
) -> Result<Vec<DotNode<'t>>, AllocError>
    ensures { IfOk result (λ nodes. map node_text nodes.items ≡ spec.nodes_with count (map unit_text units.now) (map string_bytes titles.now)) }
{
    let mut nodes = Vec::with_capacity(alloc, units.len())?;
    for (unit, title) in units.iter().zip(titles) {
        nodes.push(DotNode {
            cluster: cluster_of(count, unit.place),
            title: title.as_str(),
        })?;
    }
    Ok(nodes)
}

/// Returns the graph of nodes with these titles.
fn titled_dot(
    alloc: Global,
    names: &[&str],
    units: &[Unit<'_>],
    titles: &[String],
    links: &[(usize, usize)],
) -> Result<Vec<u8>, AllocError>
    ensures { IfOk result (λ text. text.items ≡ spec.dot_of (texts names.now) (map unit_text units.now) (map string_bytes titles.now) links.now) }
{
    let clusters = clusters_of(alloc, names)?;
    let nodes = nodes_of(alloc, names.len(), units, titles)?;
    dot_text(alloc, &clusters, &nodes, links)
}

/// Returns the graph of what `plan` builds in the language of Graphviz: a node for each package in a place, in the cluster of the place,
/// and an edge to each package that it depends on. `names` are those of the target platforms.
pub fn package_dot(
    alloc: Global,
    names: &[&str],
    workspace: &Workspace<'_>,
    plan: &Plan<'_>,
) -> Result<Vec<u8>, AllocError>
    ensures { IfOk result (λ text. spec.IsPackageDot (texts names.now) (workspace_text workspace.now).packages (plan_text plan.now) text.items) }
{
    let links = unit_links(alloc, plan)?;
    let titles = titles_of(alloc, names, workspace.packages(), plan.units())?;
    titled_dot(alloc, names, plan.units(), &titles, &links)
}
