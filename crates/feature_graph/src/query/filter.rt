//! Filters over features, and filters that call another one: by reference, in a box, or a closure.
ghost use Rattle.std.specs.Prelude.{◌≡◌};
ghost use Rattle.feature_labels.specs.Names.{id_of};
ghost use Rattle.feature_labels.specs.declared.feature_id.FeatureId.{FeatureId};
ghost use Rattle.feature_graph.specs.Boxed.{EndsAs};
ghost use Rattle.feature_graph.specs.Lent.{lent_accept};
ghost use Rattle.feature_graph.specs.Names.{HasFeature};
ghost use Rattle.feature_graph.specs.Views.{graph_of};
ghost use Rattle.feature_graph.specs.declared.graph.FeatureGraph.{FeatureGraph};

use crate::graph::FeatureGraph;
use feature_labels::FeatureId;
use std::fmt;

/// A test of features. A filter may have a state, which `accept` may change.
pub trait FeatureFilter<'g> {
    ghost use Rattle.std.specs.Prelude.{Bool};
    ghost use Rattle.guppy_packages.specs.Rows.{Text};
    ghost use Rattle.feature_labels.specs.Names.{LabelName};
    ghost use Rattle.feature_graph.specs.Values.{Graph};

    ghost can_accept: { Self → Graph → Text × LabelName → Type 0 };

    ghost accept_gives: { Self → Graph → Text × LabelName → Bool → Self → Type 0 };

    /// Returns true if the filter selects `feature_id`, a feature of `graph`.
    fn accept(&mut self, graph: &FeatureGraph<'g>, feature_id: FeatureId<'g>) -> bool
        requires known { HasFeature (graph_of graph.now).tables (id_of feature_id) }
        requires allowed { can_accept self.old (graph_of graph.now) (id_of feature_id) }
        ensures { accept_gives self.old (graph_of graph.now) (id_of feature_id.entry) result self.new };
}

impl<'g, T: FeatureFilter<'g>> FeatureFilter<'g> for &mut T {
    ghost can_accept = { λ s g i. T.can_accept s.now g i };

    ghost accept_gives = { lent_accept T.accept_gives };

    fn accept(&mut self, graph: &FeatureGraph<'g>, feature_id: FeatureId<'g>) -> bool {
        (**self).accept(graph, feature_id)
    }
}

/// A filter that can be boxed.
pub trait FeatureFilterObject: Drop {
    ghost use Rattle.std.specs.Prelude.{Bool};
    ghost use Rattle.guppy_packages.specs.Rows.{Text};
    ghost use Rattle.feature_labels.specs.Names.{LabelName};
    ghost use Rattle.feature_graph.specs.Values.{Graph};

    ghost can_accept_any: { Self → Graph → Text × LabelName → Type 0 };

    ghost accept_any_gives: { Self → Graph → Text × LabelName → Bool → Self → Type 0 };

    /// Returns true if the filter selects `feature_id`, a feature of `graph`.
    fn accept_any(&mut self, graph: &FeatureGraph<'_>, feature_id: FeatureId<'_>) -> bool
        requires known { HasFeature (graph_of graph.now).tables (id_of feature_id) }
        requires allowed { can_accept_any self.old (graph_of graph.now) (id_of feature_id) }
        ensures { accept_any_gives self.old (graph_of graph.now) (id_of feature_id.entry) result self.new };
}

impl<'g> FeatureFilter<'g> for Box<dyn FeatureFilterObject> {
    ghost can_accept = { λ s g i. (FeatureFilterObject-box s).can_accept_any s.value g i };

    ghost accept_gives = { λ s g i r t. EndsAs s t (λ y. (FeatureFilterObject-box s).accept_any_gives s.value g i r y) };

    fn accept(&mut self, graph: &FeatureGraph<'g>, feature_id: FeatureId<'g>) -> bool {
        (**self).accept_any(graph, feature_id)
    }
}

/// A filter that calls a closure.
#[derive(Drop)]
pub struct FeatureFilterFn<F>(F);

impl<F> FeatureFilterFn<F> {
    ghost use Rattle.feature_graph.specs.Filters.{closure_of};

    /// Returns the filter that calls `f`.
    pub fn new<'g>(f: F) -> Self
    where
        F: FnMut(&FeatureGraph<'g>, FeatureId<'g>) -> bool,
        ensures { closure_of result ≡ f }
    {
        FeatureFilterFn(f)
    }
}

impl<'g, F: FnMut(&FeatureGraph<'g>, FeatureId<'g>) -> bool> FeatureFilter<'g>
    for FeatureFilterFn<F> {
    ghost use Rattle.feature_graph.specs.Filters.{closure_of};

    ghost can_accept = { λ s g i. (graph : _) (id : FeatureId) → graph_of graph.now ≡ g → id_of id ≡ i → F.pre (closure_of s) graph id };

    ghost accept_gives = { λ s g i r t. (graph : _) × (id : FeatureId) × (graph_of graph.now ≡ g) × (id_of id ≡ i) × F.step (closure_of s) graph id r (closure_of t) };

    fn accept(&mut self, graph: &FeatureGraph<'g>, feature_id: FeatureId<'g>) -> bool {
        (self.0)(graph, feature_id)
    }
}

impl<F> fmt::Debug for FeatureFilterFn<F> {
    fn fmt<W: fmt::Write>(&self, f: &mut fmt::Formatter<W>) -> fmt::Result {
        f.write_str("FeatureFilterFn { .. }")
    }
}
