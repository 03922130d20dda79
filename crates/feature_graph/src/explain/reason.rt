//! The reason why a feature is in a set.
use feature_labels::{FeatureId, LinkDeclarations};

/// The reason why a feature is in a set.
#[derive(Clone, Copy, Debug, PartialEq, Eq)]
pub enum Reason<'g> {
    /// The query starts from the feature.
    Initial,
    /// An unconditional edge connects it to an earlier feature: to `from` in a forward query, to `to` in a
    /// reverse one.
    Edge {
        from: FeatureId<'g>,
        to: FeatureId<'g>,
    },
    /// An accepted link connects it to an earlier feature. The link is named by its two features and by the
    /// declarations that it covers. In a forward query, the gate of an optional half is an earlier feature too.
    Link {
        from: FeatureId<'g>,
        to: FeatureId<'g>,
        declarations: LinkDeclarations,
    },
}
