//! The sets of features that Cargo's options select.
ghost use Rattle.std.specs.Prelude.{◌≡◌};
ghost use Rattle.feature_graph.specs.Filters.{StandardAccepts};

use crate::graph::FeatureGraph;
use crate::query::filter::FeatureFilter;
use feature_labels::FeatureId;

/// A filter for one of the sets of features that Cargo's options select.
#[derive(Clone, Copy, Debug, PartialEq, Eq, PartialOrd, Ord, Hash)]
pub enum StandardFeatures {
    /// Selects only the base of each package.
    None,

    /// Selects the features that are on by default.
    Default,

    /// Selects all features.
    All,
}

impl StandardFeatures {
    /// All values, in ascending order.
    pub const VALUES: &'static [Self; 3] = &[
        StandardFeatures::None,
        StandardFeatures::Default,
        StandardFeatures::All,
    ];
}

impl<'g> FeatureFilter<'g> for StandardFeatures {
    ghost can_accept = { λ _ _ _. Unit {0} };

    ghost accept_gives = { λ s g i r t. (t ≡ s) × StandardAccepts s g.tables i r };

    fn accept(&mut self, graph: &FeatureGraph<'g>, feature_id: FeatureId<'g>) -> bool {
        match self {
            StandardFeatures::None => feature_id.is_base(),
            StandardFeatures::Default => graph.is_default(feature_id),
            StandardFeatures::All => true,
        }
    }
}
