//! The features that are on in a plan.
ghost use Rattle.std.specs.Prelude.{◌≡◌, ◌<◌, IfOk, All, length, map};
ghost use Rattle.std.specs.List.{AllZip};
ghost use Rattle.feature_core.specs.Nodes.{node_packages};
ghost use Rattle.feature_labels.specs.Names.{label_of};
ghost use Rattle.cargo_plans.specs.plan_steps.PlanViews.{plan_text};
ghost use Rattle.plan_whys.specs.Steps.{IsAt};
ghost use Rattle.plan_whys.specs.StepViews.{spot_text};
ghost use Rattle.plan_whys.specs.links.SpotLinks as spec;
ghost use Rattle.plan_whys.specs.links.SpotLinks.{AreSpotsOn};

use crate::Spot;
use crate::links::numbers::{members_of, push_if};
use cargo_plans::plan_steps::{PackageVisit, Plan};
use feature_labels::FeatureLabel;
use plan_rows::Side;
use std::alloc::{AllocError, Global};

/// Returns the spot of `node`.
fn spot_of(on: &PackageVisit, node: usize) -> Spot<'_>
    requires { node < length (node_packages on.now.visit.tables) }
    ensures { IsAt on.now node (spot_text result) }
{
    let count = on.package_count();
    let (entry, label) = on.visited().place(node);
    if entry < count {
        Spot {
            side: Side::Target,
            package: entry,
            label,
        }
    } else {
        Spot {
            side: Side::Host,
            package: entry - count,
            label,
        }
    }
}

/// Returns the spot of each of `nodes`.
fn spots_of<'p>(
    alloc: Global,
    on: &'p PackageVisit,
    nodes: &[usize],
) -> Result<Vec<Spot<'p>>, AllocError>
    requires { All (λ n. n < length (node_packages on.now.visit.tables)) nodes.now }
    ensures { IfOk result (λ spots. AllZip (IsAt on.now) nodes.now (map spot_text spots.items)) }
{
    let mut spots = Vec::with_capacity(alloc, nodes.len())?;
    for node in nodes {
        spots.push(spot_of(on, *node))?;
    }
    Ok(spots)
}

/// Returns the spots that are on in `plan`: each label of a package that is on, with its side. They are in the order of the nodes of
/// step `on`, which is that of `spot_links`. An allocation's failure is the only error.
pub fn on_spots<'p>(alloc: Global, plan: &'p Plan<'_>) -> Result<Vec<Spot<'p>>, AllocError>
    ensures { IfOk result (λ spots. AreSpotsOn (plan_text plan.now).on (map spot_text spots.items)) }
{
    let on = plan.on();
    let nodes = members_of(alloc, on.visited().members())?;
    let spots = spots_of(alloc, on, &nodes)?;
    Ok(spots)
}

/// Returns whether `label` is that of a command feature.
fn is_command(label: FeatureLabel<'_>) -> bool
    ensures { result ≡ spec.is_command (label_of label.entry) }
{
    match label {
        FeatureLabel::Named(name) => name == "[command]",
        FeatureLabel::Base | FeatureLabel::OptionalDependency(_) => false,
    }
}

/// Returns the numbers of the `spots` that are command features, ascending: they are what the command line turns on. An allocation's
/// failure is the only error.
pub fn root_spots(alloc: Global, spots: &[Spot<'_>]) -> Result<Vec<usize>, AllocError>
    ensures { IfOk result (λ roots. roots.items ≡ spec.root_spots (map spot_text spots.now)) }
{
    let mut roots = Vec::new(alloc);
    for (number, spot) in spots.iter().enumerate() {
        push_if(&mut roots, number, is_command(spot.label))?;
    }
    Ok(roots)
}
