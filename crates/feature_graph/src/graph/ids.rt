//! Lists of ids.
ghost use Rattle.std.specs.Prelude.{◌≡◌, ◌↔◌, ◌⊎◌, ℕ, IsTrue, IfOk, MatchOption, length, map};
ghost use Rattle.digraphs.specs.Bits.{has};
ghost use Rattle.feature_labels.specs.Names.{id_of};
ghost use Rattle.feature_core.specs.Built.{NodeNamed};
ghost use Rattle.feature_core.specs.Nodes.{nodes};
ghost use Rattle.feature_graph.specs.Names.{AreKnown, IsFirstUnknown, HoldsExactly};
ghost use Rattle.feature_graph.specs.Views.{tables_of_graph};

use crate::graph::FeatureGraph;
use digraphs::IxBitSet;
use feature_labels::FeatureId;
use std::alloc::{AllocError, Global};

/// Returns the first of `ids` that the graph lacks.
pub(crate) fn first_unknown<'a>(
    graph: FeatureGraph<'_>,
    ids: &[FeatureId<'a>],
) -> Option<FeatureId<'a>>
    ensures { MatchOption result
        (AreKnown (tables_of_graph graph.entry) (map id_of ids.now))
        (λ id. IsFirstUnknown (tables_of_graph graph.entry) (map id_of ids.now) (id_of id)) }
{
    'known: for id in ids {
        if !graph.contains(*id) {
            return Some(*id);
        }
    }
    None
}

/// Inserts the node of `id` into `members` if the graph has the feature.
pub(crate) fn insert_id(graph: FeatureGraph<'_>, id: FeatureId<'_>, members: &mut IxBitSet)
    requires { length members.old ≡ length (nodes (tables_of_graph graph)) }
    ensures size { length members.new ≡ length members.old }
    ensures members { (n : ℕ) → IsTrue (has members.new n) ↔ (IsTrue (has members.old n) ⊎ NodeNamed (tables_of_graph graph.entry) n (id_of id.entry)) }
{
    if let Some(node) = graph.node(id) {
        members.insert(node);
    }
}

/// Returns the set of the nodes of `ids`.
pub(crate) fn set_of_ids(
    alloc: Global,
    graph: FeatureGraph<'_>,
    ids: &[FeatureId<'_>],
) -> Result<IxBitSet, AllocError>
    ensures { IfOk result (λ set. HoldsExactly (tables_of_graph graph.entry) set (map id_of ids.now)) }
{
    let mut members = IxBitSet::empty(alloc, graph.feature_count())?;
    'ids: for id in ids {
        insert_id(graph, *id, &mut members);
    }
    Ok(members)
}
