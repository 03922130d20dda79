//! Features of a graph, with their packages.
ghost use Rattle.std.specs.Prelude.{◌≡◌, ◌↔◌, IsSome, IsTrue, IfSome, Contains};
ghost use Rattle.guppy_packages.specs.Metadata.{package_graph_of, package_id_of, package_table_of};
ghost use Rattle.feature_labels.specs.Names.{id_of, label_of};
ghost use Rattle.feature_core.specs.Nodes.{labels_of};
ghost use Rattle.feature_graph.specs.Names.{HasFeature, has_feature};

use feature_labels::{FeatureId, FeatureLabel};
use guppy_packages::{PackageId, PackageMetadata};
use std::fmt;

/// A feature of a graph. The graph has it.
#[derive(Clone, Copy)]
pub struct FeatureMetadata<'g> {
    pub(crate) package: PackageMetadata<'g>,
    pub(crate) label: FeatureLabel<'g>,
    pub ghost stands: { IsTrue (has_feature (package_graph_of «package») (package_id_of «package», label_of label)) },
}

impl<'g> FeatureMetadata<'g> {
    ghost use Rattle.feature_graph.specs.Views.{feature_name_of, feature_tables_of};

    /// Returns the id of the feature. The graph has the feature.
    pub fn feature_id(&self) -> FeatureId<'g>
        ensures name { id_of result ≡ feature_name_of self.now }
        ensures known { HasFeature (feature_tables_of self.now) (feature_name_of self.now) }
    {
        FeatureId::new(self.package.id(), self.label)
    }

    /// Returns the id of the feature's package.
    pub fn package_id(&self) -> &'g PackageId
        ensures { result.now ≡ (feature_name_of self.now).0 }
    {
        self.package.id()
    }

    /// Returns the feature's package.
    pub fn package(&self) -> PackageMetadata<'g>
        ensures graph { package_graph_of result ≡ feature_tables_of self.now }
        ensures id { package_id_of result ≡ (feature_name_of self.now).0 }
    {
        self.package
    }

    /// Returns the feature's label.
    pub fn label(&self) -> FeatureLabel<'g>
        ensures { label_of result ≡ (feature_name_of self.now).1 }
    {
        self.label
    }
}

impl fmt::Debug for FeatureMetadata<'_> {
    fn fmt<W: fmt::Write>(&self, f: &mut fmt::Formatter<W>) -> fmt::Result {
        f.debug_struct("FeatureMetadata")
            .field("package_id", self.package_id())
            .field("label", &self.label)
            .finish()
    }
}

/// Returns the label of the package that is equal to `label`, borrowed from the package; `None` if the package lacks
/// it.
pub(crate) fn label_in<'g>(
    package: PackageMetadata<'g>,
    label: FeatureLabel<'_>,
) -> Option<FeatureLabel<'g>>
    ensures same { IfSome result (λ found. label_of found ≡ label_of label.entry) }
    ensures known { IsSome result ↔ Contains (labels_of (package_table_of «package».entry)) (label_of label.entry) }
{
    match label {
        FeatureLabel::Base => Some(FeatureLabel::Base),
        FeatureLabel::Named(name) => match package.feature_place(name) {
            Some(place) => Some(FeatureLabel::Named(package.named_features()[place].name())),
            None => None,
        },
        FeatureLabel::OptionalDependency(name) => match package.optional_place(name) {
            Some(place) => Some(FeatureLabel::OptionalDependency(
                package.optional_deps()[place].as_str(),
            )),
            None => None,
        },
    }
}
