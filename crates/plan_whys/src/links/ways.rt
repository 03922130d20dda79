//! Links between the features that are on in a plan.
ghost use Rattle.std.specs.Prelude.{◌≡◌, ◌++◌, ◌∷◌, [], IfOk, OnOk, if◌then◌else◌};
ghost use Rattle.digraphs.specs.Bits.{has};
ghost use Rattle.cargo_plans.specs.plan_steps.PlanViews.{plan_text};
ghost use Rattle.walk_checks.specs.Tables.{IsEdge};
ghost use Rattle.walk_engine.specs.Walks.{IsWay, Way};
ghost use Rattle.plan_whys.specs.links.SpotLinks as spec;
ghost use Rattle.plan_whys.specs.links.SpotLinks.{AreSpotLinks, counts};
ghost use Rattle.plan_whys.specs.links.inner.Pairs.{counted_ends, ends_if};

use crate::links::numbers::{holds, members_of};
use crate::links::places::links_between;
use cargo_plans::plan_steps::{PackageVisit, Plan};
use digraphs::IxBitSet;
use feature_core::Packed;
use feature_core::graph_laws::content_of_graph;
use guppy_packages::DependencyDirection;
use std::alloc::{AllocError, Global};
use walk_checks::{EdgeTable, TableEdge};
use walk_engine::Ask;

/// Returns whether an edge with this `ask` is followed from a node that is on. `gate` is whether its gate is on.
fn is_followed(ask: Ask, gate: bool) -> bool
    ensures { result ≡ spec.is_followed ask gate }
{
    match ask {
        Ask::Nobody | Ask::Full => true,
        Ask::Weak { required, gated } => required || !gated || gate,
    }
}

/// Returns whether `edge` counts, where `members` are on.
fn counts(members: &IxBitSet, edge: TableEdge) -> bool
    ensures { (w : Way) → IsEdge w edge → result ≡ counts (has members.now) w }
{
    holds(members, edge.start) && is_followed(edge.ask, holds(members, edge.gate))
}

/// Appends the ends of `edge`, if it counts.
fn push_edge(
    pairs: &mut Vec<(usize, usize)>,
    members: &IxBitSet,
    edge: TableEdge,
) -> Result<(), AllocError>
    ensures { OnOk result ((w : Way) → IsEdge w edge → pairs.new.items ≡ pairs.old.items ++ ends_if (has members.now) w) }
{
    if counts(members, edge) {
        pairs.push((edge.start, edge.far))?;
    }
    Ok(())
}

/// Appends the ends of edge `number` of `table`, if it counts.
fn push_number(
    pairs: &mut Vec<(usize, usize)>,
    table: &Packed<'_>,
    members: &IxBitSet,
    number: usize,
) -> Result<(), AllocError>
    ensures { OnOk result ((w : Way) → IsWay table.now.holds number w → pairs.new.items ≡ pairs.old.items ++ ends_if (has members.now) w) }
{
    match table.edge(number) {
        None => Ok(()),
        Some(edge) => push_edge(pairs, members, edge),
    }
}

/// Returns the ends of the edges of `table` that count, where `members` are on.
fn way_pairs(
    alloc: Global,
    table: &Packed<'_>,
    members: &IxBitSet,
) -> Result<Vec<(usize, usize)>, AllocError>
    ensures { IfOk result (λ pairs. pairs.items ≡ counted_ends (has members.now) table.now.holds.ways) }
{
    let mut pairs = Vec::new(alloc);
    for number in 0..EdgeTable::edge_count(table) {
        push_number(&mut pairs, table, members, number)?;
    }
    Ok(pairs)
}

/// Returns the links between the nodes that are on.
fn links_on(alloc: Global, on: &PackageVisit) -> Result<Vec<(usize, usize)>, AllocError>
    ensures { IfOk result (λ links. AreSpotLinks on.now links.items) }
{
    let visited = on.visited();
    content_of_graph(visited.packages());
    let built = visited.built();
    let members = visited.members();
    let table = Packed::new(built, DependencyDirection::Forward);
    let pairs = way_pairs(alloc, &table, members)?;
    let nodes = members_of(alloc, members)?;
    let links = links_between(alloc, built.node_count(), &nodes, &pairs)?;
    Ok(links)
}

/// Returns the links between the spots that are on in `plan`, by their numbers in `on_spots`: from each spot to those that it turns on,
/// sorted, and once each. An item that waits for an optional dependency counts only if that is on. An allocation's failure is the only
/// error.
pub fn spot_links(alloc: Global, plan: &Plan<'_>) -> Result<Vec<(usize, usize)>, AllocError>
    ensures { IfOk result (λ links. AreSpotLinks (plan_text plan.now).on links.items) }
{
    links_on(alloc, plan.on())
}
