//! Steps by packages, sides and labels.
ghost use Rattle.std.specs.Prelude.{◌≡◌, ◌<◌, IfOk, IsTrue, length, map, option_map};
ghost use Rattle.guppy_packages.specs.declared.direction.DependencyDirection.TheVariants.{Forward};
ghost use Rattle.feature_core.specs.Built.{IsBuilt};
ghost use Rattle.feature_core.specs.Nodes.{node_packages};
ghost use Rattle.feature_core.specs.Offers.{content_of};
ghost use Rattle.walk_checks.specs.Tables.{IsEdge};
ghost use Rattle.walk_engine.specs.Walks.{Way, has_gate};
ghost use Rattle.plan_whys.specs.Steps.{AreStepsOf, IsAt, IsGateOf, IsReasonOf, IsStepOf};
ghost use Rattle.plan_whys.specs.StepViews.{reason_text, spot_text, why_text};
ghost use Rattle.plan_whys.specs.inner.Nodes.{AreInside, IsInside, IsReasonInside};

use crate::steps::{Spot, WhyReason, WhyStep};
use cargo_plans::{PackageVisit, Side};
use feature_core::{FeatureGraphData, Packed};
use guppy_packages::DependencyDirection;
use std::alloc::{AllocError, Global};
use walk_checks::{EdgeTable, TableEdge};
use walk_engine::{Ask, Half, Step, StepReason};

/// Returns whether `half` of an edge with this `ask` waits for the edge's gate.
fn has_gate(ask: Ask, half: Half) -> bool
    ensures { result ≡ has_gate ask half }
{
    match ask {
        Ask::Nobody | Ask::Full => false,
        Ask::Weak { required: _, gated } => match half {
            Half::Full | Half::Required => false,
            Half::Optional => gated,
        },
    }
}

/// Returns the spot of `node`.
fn spot_of(on: &PackageVisit, node: usize) -> Spot<'_>
    requires { node < length (node_packages on.now.visit.tables) }
    ensures { IsAt on.now node (spot_text result) }
{
    let count = on.package_count();
    let (entry, label) = on.visited().place(node);
    if entry < count {
        Spot {
            side: Side::Target,
            package: entry,
            label,
        }
    } else {
        Spot {
            side: Side::Host,
            package: entry - count,
            label,
        }
    }
}

/// Returns the spot of the gate of `edge`, if `half` waits for it.
fn gate_of(on: &PackageVisit, edge: TableEdge, half: Half) -> Option<Spot<'_>>
    requires { IsTrue (has_gate edge.ask half) → edge.gate < length (node_packages on.now.visit.tables) }
    ensures { (w : Way) → IsEdge w edge → IsGateOf on.now w half (option_map spot_text result) }
{
    if has_gate(edge.ask, half) {
        Some(spot_of(on, edge.gate))
    } else {
        None
    }
}

/// Returns the reason by the unconditional edge `number`. `table` has the edges of the visit.
fn by_edge<'p>(on: &'p PackageVisit, table: &Packed<'_>, number: usize) -> WhyReason<'p>
    requires { IsReasonInside (length (node_packages on.now.visit.tables)) table.now.holds (StepReason.Edge number) }
    ensures { IsReasonOf on.now table.now.holds (StepReason.Edge number) (reason_text result) }
{
    match table.edge(number) {
        None => WhyReason::Selected,
        Some(edge) => WhyReason::From {
            start: spot_of(on, edge.start),
            gate: None,
        },
    }
}

/// Returns the reason by `half` of edge `number`. `table` has the edges of the visit.
fn by_offer<'p>(
    on: &'p PackageVisit,
    table: &Packed<'_>,
    number: usize,
    half: Half,
) -> WhyReason<'p>
    requires { IsReasonInside (length (node_packages on.now.visit.tables)) table.now.holds (StepReason.Offer number half) }
    ensures { IsReasonOf on.now table.now.holds (StepReason.Offer number half) (reason_text result) }
{
    match table.edge(number) {
        None => WhyReason::Selected,
        Some(edge) => WhyReason::From {
            start: spot_of(on, edge.start),
            gate: gate_of(on, edge, half),
        },
    }
}

/// Returns `reason` by spots. `table` has the edges of the visit.
pub(crate) fn reason_of<'p>(
    on: &'p PackageVisit,
    table: &Packed<'_>,
    reason: StepReason,
) -> WhyReason<'p>
    requires { IsReasonInside (length (node_packages on.now.visit.tables)) table.now.holds reason }
    ensures { IsReasonOf on.now table.now.holds reason (reason_text result) }
{
    match reason {
        StepReason::Initial => WhyReason::Selected,
        StepReason::Edge(number) => by_edge(on, table, number),
        StepReason::Offer(number, half) => by_offer(on, table, number, half),
    }
}

/// Returns `step` by spots. `table` has the edges of the visit.
pub(crate) fn step_of<'p>(on: &'p PackageVisit, table: &Packed<'_>, step: Step) -> WhyStep<'p>
    requires { IsInside (length (node_packages on.now.visit.tables)) table.now.holds step }
    ensures { IsStepOf on.now table.now.holds step (why_text result) }
{
    WhyStep {
        at: spot_of(on, step.node),
        reason: reason_of(on, table, step.reason),
    }
}

/// Returns `steps` by spots. `built` has the edges of the visit.
pub(crate) fn steps_of<'p>(
    alloc: Global,
    on: &'p PackageVisit,
    built: &FeatureGraphData,
    steps: &[Step],
) -> Result<Vec<WhyStep<'p>>, AllocError>
    requires { AreInside (length (node_packages on.now.visit.tables)) (content_of Forward built.now) steps.now }
    ensures { IfOk result (λ whys. AreStepsOf on.now (content_of Forward built.now) steps.now (map why_text whys.items)) }
{
    let table = Packed::new(built, DependencyDirection::Forward);
    let mut whys = Vec::with_capacity(alloc, steps.len())?;
    for step in steps {
        whys.push(step_of(on, &table, *step))?;
    }
    Ok(whys)
}
