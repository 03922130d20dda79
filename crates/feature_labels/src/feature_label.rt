//! The label of a feature in its package.
ghost use Rattle.std.specs.Prelude.{◌≡◌, ◌↔◌, IsTrue, Some};
ghost use Rattle.feature_labels.specs.Names.{label_of, label_text, kind_of};

use std::fmt;

/// A unique identifier for a feature within one package, and a part of a `FeatureId`.
///
/// Labels are ordered: the base, then the named features by the bytes of their names, then the optional dependencies by the bytes
/// of theirs.
#[derive(Clone, Copy, Debug, PartialEq, Eq, PartialOrd, Ord, Hash)]
pub enum FeatureLabel<'g> {
    /// The package with no feature enabled. Each package has this label.
    Base,

    /// A named feature.
    Named(&'g str),

    /// An optional dependency, by its name.
    OptionalDependency(&'g str),
}

impl FeatureLabel<'_> {
    /// Returns the label's variant, without the name.
    pub fn kind(self) -> FeatureKind
        ensures { result ≡ kind_of (label_of self.entry) }
    {
        match self {
            FeatureLabel::Base => FeatureKind::Base,
            FeatureLabel::Named(_) => FeatureKind::Named,
            FeatureLabel::OptionalDependency(_) => FeatureKind::OptionalDependency,
        }
    }
}

/// Prints `[base]`, or the name of a named feature, or `dep:` and the name of an optional dependency.
impl fmt::Display for FeatureLabel<'_> {
    ghost output = { λ label. Some (label_text (label_of label)) };

    fn fmt<W: fmt::Write>(&self, f: &mut fmt::Formatter<W>) -> fmt::Result {
        match self {
            FeatureLabel::Base => f.write_str("[base]"),
            FeatureLabel::Named(feature_name) => f.write_str(feature_name),
            FeatureLabel::OptionalDependency(dep_name) => write!(f, "dep:{dep_name}"),
        }
    }
}

/// The kind of a feature within its package, ordered as the labels are.
#[derive(Clone, Copy, Debug, PartialEq, Eq, PartialOrd, Ord, Hash)]
pub enum FeatureKind {
    /// The package with no feature enabled. Each package has this kind of feature.
    Base,

    /// A named feature.
    Named,

    /// An optional dependency.
    OptionalDependency,
}

impl FeatureKind {
    /// Returns whether this is the base feature.
    pub fn is_base(self) -> bool
        ensures { IsTrue result ↔ (self ≡ FeatureKind.Base) }
    {
        matches!(self, FeatureKind::Base)
    }

    /// Returns whether this is a named feature.
    pub fn is_named(self) -> bool
        ensures { IsTrue result ↔ (self ≡ FeatureKind.Named) }
    {
        matches!(self, FeatureKind::Named)
    }

    /// Returns whether this is an optional dependency.
    pub fn is_optional_dependency(self) -> bool
        ensures { IsTrue result ↔ (self ≡ FeatureKind.OptionalDependency) }
    {
        matches!(self, FeatureKind::OptionalDependency)
    }
}
