//! Visits the features that some features turn on.
ghost use Rattle.std.specs.Prelude.{◌≡◌, ◌↔◌, ◌||◌, ℕ, true, IfOk, IsTrue, length, map};
ghost use Rattle.digraphs.specs.Bits.{has};
ghost use Rattle.feature_core.specs.Built.{IsBuilt};
ghost use Rattle.feature_labels.specs.Names.{label_of};
ghost use Rattle.plan_starts.specs.step_visits.Visits.{IsReached, IsVisit, is_node, is_start, node_at, place_view};

use crate::step_visits::visited::{Visited, node_of};
use digraphs::IxBitSet;
use feature_core::engine::{Half, Offerer};
use feature_core::graph_laws::one_content;
use feature_core::laws::agrees_by_answer;
use feature_core::{FeatureGraphData, walk};
use feature_labels::FeatureLabel;
use guppy_packages::{DependencyDirection, PackageGraph};
use std::alloc::{AllocError, Global};

/// An offerer that accepts each offer.
#[derive(Drop)]
struct AllOffers;

impl Offerer for AllOffers {
    ghost can_offer = { λ _ _ _. Unit {0} };

    ghost gives = { λ _ _ _ answer _. answer ≡ true };

    fn offer(&mut self, _edge: usize, _half: Half) -> bool {
        true
    }
}

/// Inserts the node of `label` of package `ix`, if there is one. The data must be built from `packages`.
fn insert_start(
    packages: &PackageGraph,
    built: &FeatureGraphData,
    set: &mut IxBitSet,
    ix: usize,
    label: FeatureLabel<'_>,
)
    requires built { IsBuilt packages.now built.now }
    requires size { length set.old ≡ length built.now.packages }
    ensures size { length set.new ≡ length set.old }
    ensures marks { (n : ℕ) → has set.new n ≡ (has set.old n || is_node (node_at packages.now ix (label_of label.entry)) n) }
{
    if let Some(node) = node_of(packages, built, ix, label) {
        set.insert(node);
    }
}

/// Returns the nodes of `starts`. The data must be built from `packages`.
pub(crate) fn start_nodes(
    alloc: Global,
    packages: &PackageGraph,
    built: &FeatureGraphData,
    starts: &[(usize, FeatureLabel<'_>)],
) -> Result<IxBitSet, AllocError>
    requires { IsBuilt packages.now built.now }
    ensures size { IfOk result (λ set. length set ≡ length built.now.packages) }
    ensures nodes { IfOk result (λ set. (n : ℕ) → has set n ≡ is_start packages.now (map place_view starts.now) n) }
{
    let mut set = IxBitSet::empty(alloc, built.node_count())?;
    'starts: for &(ix, label) in starts {
        insert_start(packages, built, &mut set, ix, label);
    }
    Ok(set)
}

/// Returns the nodes that are reached from `starts`, if every offer is accepted. The data must be built from `packages`.
fn reached(
    alloc: Global,
    packages: &PackageGraph,
    built: &FeatureGraphData,
    starts: &[(usize, FeatureLabel<'_>)],
) -> Result<IxBitSet, AllocError>
    requires { IsBuilt packages.now built.now }
    ensures size { IfOk result (λ set. length set ≡ length built.now.packages) }
    ensures members { IfOk result (λ set. (n : ℕ) → IsTrue (has set n) ↔ IsReached packages.now (map place_view starts.now) n) }
{
    one_content(packages);
    agrees_by_answer::<AllOffers>();
    let initials = start_nodes(alloc, packages, built, starts)?;
    match walk(
        alloc,
        built,
        DependencyDirection::Forward,
        &initials,
        &mut AllOffers,
    ) {
        Ok(walk) => Ok(walk.members),
        Err(_) => Err(AllocError),
    }
}

/// Returns the features of `packages` that are reached from `starts`, if every offer is accepted: the least set that has the starts
/// and is closed. A start is a package, by its number, and a label; one that the packages lack has no effect.
pub fn visit(
    alloc: Global,
    packages: PackageGraph,
    starts: &[(usize, FeatureLabel<'_>)],
) -> Result<Visited, AllocError>
    ensures { IfOk result (λ v. IsVisit packages (map place_view starts.now) v) }
{
    let Ok(built) = FeatureGraphData::build(alloc, &packages, 0) else {
        return Err(AllocError);
    };
    let members = reached(alloc, &packages, &built, starts)?;
    Ok(Visited {
        packages,
        built,
        members,
    })
}
