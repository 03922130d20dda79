//! All reasons why a label is on.
ghost use Rattle.std.specs.Prelude.{◌≡◌, ◌<◌, ◌++◌, IfOk, OnOk, All, length, map};
ghost use Rattle.std.specs.List.{AllZip};
ghost use Rattle.guppy_packages.specs.declared.direction.DependencyDirection.TheVariants.{Forward};
ghost use Rattle.digraphs.specs.Bits.{has};
ghost use Rattle.feature_core.specs.Nodes.{node_packages};
ghost use Rattle.cargo_plans.specs.plan_steps.PlanViews.{plan_text};
ghost use Rattle.walk_checks.specs.Tables.{IsEdge};
ghost use Rattle.walk_engine.specs.Laws.{AreReverse};
ghost use Rattle.walk_engine.specs.Walks.{IsWay, Way};
ghost use Rattle.plan_whys.specs.Reasons as spec;
ghost use Rattle.plan_whys.specs.Reasons.{AreReasons, AreReasonsAt, reasons_by, reasons_of, weak_reasons};
ghost use Rattle.plan_whys.specs.Steps.{IsReasonOf};
ghost use Rattle.plan_whys.specs.StepViews.{reason_text, spot_text};
ghost use Rattle.plan_whys.specs.inner.Nodes.{IsReasonInside};

use crate::nodes::node_of;
use crate::spots::reason_of;
use crate::steps::{Spot, WhyReason};
use cargo_plans::{PackageVisit, Plan};
use digraphs::IxBitSet;
use feature_core::Packed;
use feature_core::graph_laws::content_of_graph;
use guppy_packages::DependencyDirection;
use std::alloc::{AllocError, Global};
use walk_checks::{EdgeTable, TableEdge};
use walk_engine::{Ask, Half, StepReason};

/// Returns whether `number` is in `set`; false for a number that isn't below its bound.
fn holds(set: &IxBitSet, number: usize) -> bool
    ensures { result ≡ has set.now number }
{
    number < set.size() && set.contains(number)
}

/// Appends the reasons by the halves of weak edge `number`.
fn push_weak(
    found: &mut Vec<StepReason>,
    number: usize,
    required: bool,
    optional: bool,
) -> Result<(), AllocError>
    ensures { OnOk result (found.new.items ≡ found.old.items ++ weak_reasons number required optional) }
{
    if required {
        found.push(StepReason::Offer(number, Half::Required))?;
    }
    if optional {
        found.push(StepReason::Offer(number, Half::Optional))?;
    }
    Ok(())
}

/// Appends the reasons by edge `number`. `gate` is whether its gate is on.
fn push_edge(
    found: &mut Vec<StepReason>,
    number: usize,
    ask: Ask,
    gate: bool,
) -> Result<(), AllocError>
    ensures { OnOk result (found.new.items ≡ found.old.items ++ reasons_of number ask gate) }
{
    match ask {
        Ask::Nobody => found.push(StepReason::Edge(number))?,
        Ask::Full => found.push(StepReason::Offer(number, Half::Full))?,
        Ask::Weak { required, gated } => push_weak(found, number, required, !gated || gate)?,
    }
    Ok(())
}

/// Appends the reasons by edge `number`, which is `edge`, if it leads to `node` from one of `members`.
fn push_reasons(
    found: &mut Vec<StepReason>,
    members: &IxBitSet,
    node: usize,
    number: usize,
    edge: TableEdge,
) -> Result<(), AllocError>
    ensures { OnOk result ((w : Way) → IsEdge w edge → found.new.items ≡ found.old.items ++ reasons_by (has members.now) node number w) }
{
    if edge.far == node && holds(members, edge.start) {
        push_edge(found, number, edge.ask, holds(members, edge.gate))?;
    }
    Ok(())
}

/// Appends the reasons by edge `number` of `table`, if it leads to `node` from one of `members`.
fn push_number(
    found: &mut Vec<StepReason>,
    table: &Packed<'_>,
    members: &IxBitSet,
    node: usize,
    number: usize,
) -> Result<(), AllocError>
    ensures { OnOk result ((w : Way) → IsWay table.now.holds number w → found.new.items ≡ found.old.items ++ reasons_by (has members.now) node number w) }
{
    match table.edge(number) {
        None => Ok(()),
        Some(edge) => push_reasons(found, members, node, number, edge),
    }
}

/// Returns the reasons by all edges of `table` that lead to `node` from one of `members`. `back` has the same edges, followed in the
/// other direction.
fn all_reasons(
    alloc: Global,
    table: &Packed<'_>,
    back: &Packed<'_>,
    members: &IxBitSet,
    node: usize,
) -> Result<Vec<StepReason>, AllocError>
    requires node { node < back.now.holds.nodes }
    requires reverse { AreReverse table.now.holds back.now.holds }
    ensures { IfOk result (λ found. found.items ≡ spec.all_reasons table.now.holds (has members.now) node) }
{
    let mut found = Vec::new(alloc);
    for place in 0..EdgeTable::edge_count(back) {
        match back.edge_from(node, place) {
            None => return Ok(found),
            Some(number) => push_number(&mut found, table, members, node, number)?,
        }
    }
    Ok(found)
}

/// Returns `reasons` by spots. `table` has the edges of the visit.
fn reasons_by_spots<'p>(
    alloc: Global,
    on: &'p PackageVisit,
    table: &Packed<'_>,
    reasons: &[StepReason],
) -> Result<Vec<WhyReason<'p>>, AllocError>
    requires { All (IsReasonInside (length (node_packages on.now.visit.tables)) table.now.holds) reasons.now }
    ensures { IfOk result (λ shown. AllZip (IsReasonOf on.now table.now.holds) reasons.now (map reason_text shown.items)) }
{
    let mut shown = Vec::with_capacity(alloc, reasons.len())?;
    for reason in reasons {
        shown.push(reason_of(on, table, *reason))?;
    }
    Ok(shown)
}

/// Returns the reasons why `node` is on.
fn reasons_at<'p>(
    alloc: Global,
    on: &'p PackageVisit,
    node: usize,
) -> Result<Vec<WhyReason<'p>>, AllocError>
    requires { node < length (node_packages on.now.visit.tables) }
    ensures { IfOk result (λ shown. AreReasonsAt on.now node (map reason_text shown.items)) }
{
    let visited = on.visited();
    content_of_graph(visited.packages());
    let built = visited.built();
    let table = Packed::new(built, DependencyDirection::Forward);
    let back = Packed::new(built, DependencyDirection::Reverse);
    let reasons = all_reasons(alloc, &table, &back, visited.members(), node)?;
    let shown = reasons_by_spots(alloc, on, &table, &reasons)?;
    Ok(shown)
}

/// Returns the direct reasons why `at` is on in `plan`: one for each edge, or half of an edge, that leads to `at` from a spot that is on.
/// `Selected` is never among them. The list is empty if `at` is off. An allocation's failure is the only error.
pub fn reasons<'p>(
    alloc: Global,
    plan: &'p Plan<'_>,
    at: Spot<'_>,
) -> Result<Vec<WhyReason<'p>>, AllocError>
    ensures { IfOk result (λ shown. AreReasons (plan_text plan.now).on (spot_text at.entry) (map reason_text shown.items)) }
{
    let on = plan.on();
    match node_of(on, at) {
        None => Ok(Vec::new(alloc)),
        Some(node) => {
            let shown = reasons_at(alloc, on, node)?;
            Ok(shown)
        }
    }
}
