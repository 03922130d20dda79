//! Ids of features.
ghost use Rattle.std.specs.Prelude.{◌≡◌, ◌↔◌, IsTrue, Some};
ghost use Rattle.feature_labels.specs.Names.{label_of, id_of, id_text, kind_of};
ghost use Rattle.feature_labels.specs.Names.LabelName.{base, named, optional};
ghost use Rattle.feature_labels.specs.declared.feature_label.FeatureKind.TheVariants as kind;

use crate::feature_label::FeatureLabel;
use guppy_packages::PackageId;
use std::fmt;

/// An identifier for a feature of a package: the package's id and the feature's label.
///
/// Ids are ordered by the bytes of the package's id, then by label.
#[derive(Clone, Copy, Debug, PartialEq, Eq, PartialOrd, Ord, Hash)]
pub struct FeatureId<'g> {
    package_id: &'g PackageId,
    label: FeatureLabel<'g>,
}

impl<'g> FeatureId<'g> {
    /// Returns the id of the feature `label` of the package `package_id`.
    pub fn new(package_id: &'g PackageId, label: FeatureLabel<'g>) -> Self
        ensures { id_of result ≡ (package_id.now, label_of label.entry) }
    {
        FeatureId { package_id, label }
    }

    /// Returns the id of the named feature `feature_name`.
    pub fn named(package_id: &'g PackageId, feature_name: &'g str) -> Self
        ensures { id_of result ≡ (package_id.now, named feature_name.now) }
    {
        FeatureId::new(package_id, FeatureLabel::Named(feature_name))
    }

    /// Returns the id of the optional dependency `dep_name`.
    pub fn optional_dependency(package_id: &'g PackageId, dep_name: &'g str) -> Self
        ensures { id_of result ≡ (package_id.now, optional dep_name.now) }
    {
        FeatureId::new(package_id, FeatureLabel::OptionalDependency(dep_name))
    }

    /// Returns the id of the package's base feature.
    pub fn base(package_id: &'g PackageId) -> Self
        ensures { id_of result ≡ (package_id.now, base) }
    {
        FeatureId::new(package_id, FeatureLabel::Base)
    }

    /// Returns the package's id.
    pub fn package_id(&self) -> &'g PackageId
        ensures { result.now ≡ (id_of self.now).0 }
    {
        self.package_id
    }

    /// Returns the feature's label.
    pub fn label(&self) -> FeatureLabel<'g>
        ensures { label_of result ≡ (id_of self.now).1 }
    {
        self.label
    }

    /// Returns whether this is the base feature of its package.
    pub fn is_base(&self) -> bool
        ensures { IsTrue result ↔ (kind_of (id_of self.now).1 ≡ kind.Base) }
    {
        self.label.kind().is_base()
    }

    /// Returns whether this is an optional dependency.
    pub fn is_optional_dependency(self) -> bool
        ensures { IsTrue result ↔ (kind_of (id_of self.entry).1 ≡ kind.OptionalDependency) }
    {
        self.label.kind().is_optional_dependency()
    }

    /// Returns whether this is a named feature.
    pub fn is_named(self) -> bool
        ensures { IsTrue result ↔ (kind_of (id_of self.entry).1 ≡ kind.Named) }
    {
        self.label.kind().is_named()
    }
}

impl<'g> From<(&'g PackageId, FeatureLabel<'g>)> for FeatureId<'g> {
    ghost from_gives = { λ parts id. id_of id ≡ (parts.0.now, label_of parts.1) };

    fn from((package_id, label): (&'g PackageId, FeatureLabel<'g>)) -> Self {
        FeatureId::new(package_id, label)
    }
}

/// Prints the package's id, `/` and the label.
impl fmt::Display for FeatureId<'_> {
    ghost output = { λ id. Some (id_text (id_of id)) };

    fn fmt<W: fmt::Write>(&self, f: &mut fmt::Formatter<W>) -> fmt::Result {
        write!(f, "{}/{}", self.package_id, self.label)
    }
}
