//! Links between the packages that a plan builds.
ghost use Rattle.std.specs.Prelude.{◌≡◌, ◌<◌, ◌≤◌, ◌^◌, IfOk, MatchOption, Some, false, length, map, slice_get};
ghost use Rattle.std.specs.Option.{option_map_or};
ghost use Rattle.digraphs.specs.Bits.{has};
ghost use Rattle.feature_labels.specs.Names.LabelName.{base};
ghost use Rattle.guppy_packages.specs.Tables.{pair_of};
ghost use Rattle.cargo_plans.specs.plan_steps.PlanViews.{plan_text};
ghost use Rattle.cargo_plans.specs.plan_units.UnitViews.{unit_text};
ghost use Rattle.plan_starts.specs.step_visits.Visits.{node_at};
ghost use Rattle.plan_whys.specs.links.UnitLinks as spec;
ghost use Rattle.plan_whys.specs.links.UnitLinks.{AreUnitLinks};
ghost use Rattle.plan_whys.specs.links.inner.Pairs.{capped_entry};
ghost use Rattle.plan_whys.specs.links.inner.Starting.{starting};

use crate::links::numbers::{holds, push_if};
use crate::links::places::links_between;
use cargo_plans::plan_steps::{Place, Plan, Unit};
use digraphs::IxBitSet;
use feature_labels::FeatureLabel;
use guppy_packages::PackageGraph;
use plan_starts::step_visits::Visited;
use std::alloc::{AllocError, Global};

/// Returns the first entry of `place`, of `count` packages; `None` if it doesn't fit.
fn first_entry(count: usize, place: Place) -> Option<usize>
    ensures { MatchOption result (2 ^ 64 ≤ spec.first_entry count place) (λ entry. entry ≡ spec.first_entry count place) }
{
    match place {
        Place::Host => Some(0),
        Place::Target(number) => number.checked_mul(count)?.checked_add(count),
    }
}

/// Returns the entry of `unit`, of `count` packages; `None` if it doesn't fit.
fn entry_of(count: usize, unit: &Unit<'_>) -> Option<usize>
    ensures { MatchOption result (2 ^ 64 ≤ spec.entry_of count (unit_text unit.now)) (λ entry. entry ≡ spec.entry_of count (unit_text unit.now)) }
{
    first_entry(count, unit.place)?.checked_add(unit.package)
}

/// Returns the entry of `unit`, of `count` packages; the largest `usize` if it doesn't fit.
fn capped_entry(count: usize, unit: &Unit<'_>) -> usize
    ensures { result ≡ capped_entry count (unit_text unit.now) }
{
    match entry_of(count, unit) {
        Some(entry) => entry,
        None => usize::MAX,
    }
}

/// Returns the entry of each of `units`, of `count` packages.
fn capped_entries(alloc: Global, count: usize, units: &[Unit<'_>]) -> Result<Vec<usize>, AllocError>
    ensures { IfOk result (λ entries. entries.items ≡ map (capped_entry count) (map unit_text units.now)) }
{
    let mut entries = Vec::with_capacity(alloc, units.len())?;
    for unit in units {
        entries.push(capped_entry(count, unit))?;
    }
    Ok(entries)
}

/// Returns the two ends of link `number`.
fn pair_of(packages: &PackageGraph, number: usize) -> (usize, usize)
    requires { number < length packages.now.links }
    ensures { slice_get (map pair_of packages.now.links) number ≡ Some result }
{
    let link = packages.link(number);
    (link.from().package_ix(), link.to().package_ix())
}

/// Returns the two ends of each link.
fn link_pairs(alloc: Global, packages: &PackageGraph) -> Result<Vec<(usize, usize)>, AllocError>
    ensures { IfOk result (λ pairs. pairs.items ≡ map pair_of packages.now.links) }
{
    let mut pairs = Vec::with_capacity(alloc, packages.link_count())?;
    for number in 0..packages.link_count() {
        pairs.push(pair_of(packages, number))?;
    }
    Ok(pairs)
}

/// Returns the links between the units of `plan`, by their numbers: from each unit to those on which it depends, sorted, and once
/// each. An allocation's failure is the only error.
pub fn unit_links(alloc: Global, plan: &Plan<'_>) -> Result<Vec<(usize, usize)>, AllocError>
    ensures { IfOk result (λ links. AreUnitLinks (plan_text plan.now) links.items) }
{
    let packages = plan.built().packages();
    packages.facts();
    let entries = capped_entries(alloc, plan.on().package_count(), plan.units())?;
    let pairs = link_pairs(alloc, packages)?;
    let links = links_between(alloc, packages.package_count(), &entries, &pairs)?;
    Ok(links)
}

/// Returns whether `node` is in `set`; false if there is none.
fn is_among(set: &IxBitSet, node: Option<usize>) -> bool
    ensures { result ≡ option_map_or (has set.now) node false }
{
    match node {
        Some(node) => holds(set, node),
        None => false,
    }
}

/// Returns the node of the base of `unit` in the visit of step `built`, of `count` packages.
fn node_of(built: &Visited, count: usize, unit: &Unit<'_>) -> Option<usize>
    ensures { result ≡ node_at built.now.tables (spec.entry_of count (unit_text unit.now)) base }
{
    match entry_of(count, unit) {
        Some(entry) => built.node(entry, FeatureLabel::Base),
        None => {
            let _room = built.packages().package_count();
            None
        }
    }
}

/// Returns the numbers of those of `units`, of `count` packages, whose node is one of `starts`. `built` is the visit of step `built`.
fn roots_of(
    alloc: Global,
    built: &Visited,
    count: usize,
    units: &[Unit<'_>],
    starts: &IxBitSet,
) -> Result<Vec<usize>, AllocError>
    ensures { IfOk result (λ roots. roots.items ≡ starting built.now count (has starts.now) (map unit_text units.now)) }
{
    let mut roots = Vec::new(alloc);
    for (number, unit) in units.iter().enumerate() {
        push_if(
            &mut roots,
            number,
            is_among(starts, node_of(built, count, unit)),
        )?;
    }
    Ok(roots)
}

/// Returns the numbers of the units at which step `built` of `plan` starts, ascending. An allocation's failure is the only error.
pub fn root_units(alloc: Global, plan: &Plan<'_>) -> Result<Vec<usize>, AllocError>
    ensures { IfOk result (λ roots. roots.items ≡ spec.root_units (plan_text plan.now)) }
{
    let built = plan.built();
    let starts = built.start_nodes(alloc, plan.starts())?;
    let roots = roots_of(
        alloc,
        built,
        plan.on().package_count(),
        plan.units(),
        &starts,
    )?;
    Ok(roots)
}
