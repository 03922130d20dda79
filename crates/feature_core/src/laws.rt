//! Laws of walks, of edges, and of equality of warnings. Each function's contract is the law; those of walks and edges do
//! nothing.

ghost use Rattle.digraph_orders.specs.Laws.{ComponentsFollowEdges, CyclesAreMutual, FirmEdgesFollow};
ghost use Rattle.std.specs.Prelude.{◌≡◌, ◌↔◌, ℕ, IsTrue};
ghost use Rattle.feature_edges.specs.Candidates.{Edge, Candidate, IsEdge, rank_of};
ghost use Rattle.feature_core.specs.Built.{Built, IsBuilt};
ghost use Rattle.feature_core.specs.Present.{ArePresent};
ghost use Rattle.feature_edges.specs.Warnings.{warning_of};

use digraph_orders::laws::{components_follow_edges, cycles_are_mutual, firm_edges_follow};
use feature_edges::{FeatureGraphWarning, PackageGraph};
pub use walk_checks::laws::{exact_is_least, explained_in_least, run_is_exact, walk_is_exact};
pub use walk_engine::laws::{
    agrees_by_answer, least_monotone, one_result, reach_additive, reach_both_ways,
    required_half_is_due, reverse_accept_all,
};

/// States that in an order, if an edge joins nodes of two components, its source comes first. If the edges that aren't dev-only
/// form no cycle, each of them has its source first.
pub fn order_respects_edges()
    ensures components { ComponentsFollowEdges }
    ensures firm { FirmEdgesFollow }
{
    components_follow_edges();
    firm_edges_follow();
}

/// States that lying on a common cycle is symmetric.
pub fn common_cycle_symmetric()
    ensures { CyclesAreMutual }
{
    cycles_are_mutual();
}

/// States that candidates of one pair and one rank are equal, so a pair has at most one edge.
pub fn one_candidate(graph: &PackageGraph)
    ensures of_rank { (u w : ℕ) (e other : Edge) → Candidate graph.now u w e → Candidate graph.now u w other
        → rank_of e ≡ rank_of other → e ≡ other }
    ensures of_pair { (u w : ℕ) (e other : Edge) → IsEdge graph.now u w e → IsEdge graph.now u w other → e ≡ other }
{
    graph.facts();
}

/// States that the link of each conditional edge is present for some kind of dependency.
pub fn links_are_present(graph: &PackageGraph)
    ensures { (b : Built) → IsBuilt graph.now b → ArePresent b.edges }
{
    graph.facts();
}

/// Compares two warnings: they are equal if and only if they are of one kind, with the same texts.
pub fn warning_equality(a: &FeatureGraphWarning, b: &FeatureGraphWarning) -> bool
    ensures { IsTrue result ↔ (warning_of a.now ≡ warning_of b.now) }
{
    a == b
}
