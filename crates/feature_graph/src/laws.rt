//! Laws of visitors, explanations and parts. Each function does nothing: its contract is the law. The laws of the
//! crates below are re-exported.
ghost use Rattle.std.specs.Borrow.{MutBor};
ghost use Rattle.std.specs.Prelude.{◌≡◌, ◌↔◌, ℕ, Bool, List, IsTrue};
ghost use Rattle.digraphs.specs.Bits.{has};
ghost use Rattle.walk_engine.specs.declared.walks.Half.{Half};
ghost use Rattle.walk_checks.specs.Exact.{IsExact};
ghost use Rattle.walk_engine.specs.Explanations.{IsExplainedWalk, IsExplanation};
ghost use Rattle.walk_engine.specs.Laws.{AnswersBy, every};
ghost use Rattle.walk_engine.specs.declared.walks.Step.{Step};
ghost use Rattle.walk_engine.specs.Walks.{Call, Agrees, GoesAlong, IsWalk, Least};
ghost use Rattle.feature_graph.specs.Explained.{PassesChecks};
ghost use Rattle.feature_graph.specs.Filters.{Ran, Run};
ghost use Rattle.feature_graph.specs.Lent.{lent_accept, lent_visit};
ghost use Rattle.feature_graph.specs.PartLaws.{FilterIsFirst, PartitionIsSplit};
ghost use Rattle.feature_graph.specs.Values.{Graph, Query};
ghost use Rattle.feature_graph.specs.Views.{graph_of};
ghost use Rattle.feature_graph.specs.Visits.{query_content, shown};

use crate::graph::FeatureGraph;
use crate::query::filter::FeatureFilter;
use crate::query::visitor::FeatureLinkVisitor;
pub use feature_core::graph_laws;
use feature_core::graph_laws::link_names_offer;
pub use feature_core::laws::{
    agrees_by_answer, common_cycle_symmetric, exact_is_least, explained_in_least, least_monotone,
    links_are_present, one_candidate, one_result, order_respects_edges, reach_additive,
    reach_both_ways, required_half_is_due, reverse_accept_all, run_is_exact, walk_is_exact,
    warning_equality,
};

/// If a visitor decides by a fixed test of offers, the test agrees with each run of its answers. Then the members of a
/// walk are exactly the least set for the test.
pub fn visitor_agrees_by_answer<'g, V: FeatureLinkVisitor<'g>>()
    ensures agrees { (q : Query) (A : ℕ → Half → Bool) (s t : V) (run : List Call) → AnswersBy (shown V.visit_gives q) A s
        → GoesAlong (shown V.visit_gives q) s run t → Agrees A run }
    ensures least { (q : Query) (A : ℕ → Half → Bool) (s t : V) (M : ℕ → Bool) → AnswersBy (shown V.visit_gives q) A s
        → IsWalk (query_content q) (has q.initials) (shown V.visit_gives q) s t M
        → (n : ℕ) → IsTrue (M n) ↔ Least (query_content q) (has q.initials) A n }
{}

/// The result of `resolve_explained` passes both checks: its steps are an explanation, and an exact one with the
/// refused offers. If the visitor decides by a fixed test of offers, the steps use offers of the test alone.
pub fn resolved_is_exact<'g, V: FeatureLinkVisitor<'g>>()
    ensures explained { (q : Query) (s t : V) (M : ℕ → Bool) (steps : List Step) (refused : List (ℕ × Half))
        → IsExplainedWalk (query_content q) (has q.initials) (shown V.visit_gives q) s t M steps refused
        → IsExplanation (query_content q) (has q.initials) every steps }
    ensures exact { (q : Query) (s t : V) (M : ℕ → Bool) (steps : List Step) (refused : List (ℕ × Half))
        → IsExplainedWalk (query_content q) (has q.initials) (shown V.visit_gives q) s t M steps refused
        → IsExact (query_content q) (has q.initials) refused steps }
    ensures by_answer { (q : Query) (A : ℕ → Half → Bool) (s t : V) (M : ℕ → Bool) (steps : List Step) (refused : List (ℕ × Half))
        → AnswersBy (shown V.visit_gives q) A s
        → IsExplainedWalk (query_content q) (has q.initials) (shown V.visit_gives q) s t M steps refused
        → IsExplanation (query_content q) (has q.initials) A steps }
{
    run_is_exact();
}

/// The result of `resolve_explained` over `graph` passes both checks of `graph`: its named steps are an explanation
/// (`Explains`), and with its named refused links a complete one (`ExplainsAll`).
pub fn resolved_passes_checks<'g, V: FeatureLinkVisitor<'g>>(graph: FeatureGraph<'g>)
    ensures { (q : Query) (s t : V) (M : ℕ → Bool) (steps : List Step) (refused : List (ℕ × Half)) → q.graph ≡ graph_of graph.entry
        → IsExplainedWalk (query_content q) (has q.initials) (shown V.visit_gives q) s t M steps refused
        → PassesChecks q.graph q.direction q.initials steps refused }
{
    link_names_offer(graph.graph);
    run_is_exact();
}

/// A visitor that is a `&mut` stays the same reference in each run, and its states are those of the visitor behind it.
pub fn lent_visitor_stays<'g, V: FeatureLinkVisitor<'g>>()
    ensures { (q : Query) (s t : MutBor V) (run : List Call) → GoesAlong (shown (lent_visit V.visit_gives) q) s run t
        → (t.ghost_name ≡ s.ghost_name) × GoesAlong (shown V.visit_gives q) s.now run t.now }
{}

/// A filter that is a `&mut` stays the same reference in each run, and its states are those of the filter behind it.
pub fn lent_filter_stays<'g, F: FeatureFilter<'g>>()
    ensures { (g : Graph) (s t : MutBor F) (run : Run) → Ran (lent_accept F.accept_gives) g s run t
        → (t.ghost_name ≡ s.ghost_name) × Ran F.accept_gives g s.now run t.now }
{}

/// If a callback returned true or false once for each feature of a set, the two parts are disjoint and their union is
/// the set. The same results make the same part, in `filter` and in `partition`.
pub fn partition_is_split()
    ensures split { PartitionIsSplit }
    ensures first { FilterIsFirst }
{
    digraph_orders::laws::order_lists_each();
    guppy_support::laws::members_come_once();
}
