//! Tests whether two graphs count as one.
ghost use Rattle.std.specs.Prelude.{◌≡◌, ◌↔◌, IsTrue};
ghost use Rattle.feature_core.specs.Nodes.{nodes};
ghost use Rattle.feature_graph.specs.SetValues.{SameGraph};
ghost use Rattle.feature_graph.specs.Views.{graph_of, tables_of_graph};

use crate::graph::FeatureGraph;
use feature_labels::laws::id_equality;

impl FeatureGraph<'_> {
    /// Returns true if the two graphs have the same features in the same order.
    pub(crate) fn has_same_features(&self, other: &FeatureGraph<'_>) -> bool
        ensures { IsTrue result ↔ (nodes (tables_of_graph self.now) ≡ nodes (tables_of_graph other.now)) }
    {
        let count = self.feature_count();
        if count != other.feature_count() {
            return false;
        }
        'nodes: for node in 0..count {
            if !id_equality(self.id(node), other.id(node)) {
                return false;
            }
        }
        true
    }

    /// Returns true if the two graphs count as one: they have one stamp, and the same features in the same order.
    pub(crate) fn is_same(&self, other: &FeatureGraph<'_>) -> bool
        ensures { IsTrue result ↔ SameGraph (graph_of self.now) (graph_of other.now) }
    {
        self.stamp() == other.stamp() && self.has_same_features(other)
    }
}
