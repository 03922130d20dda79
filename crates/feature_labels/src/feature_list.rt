//! A sorted list of features of one package, without repeats.
ghost use Rattle.std.specs.Prelude.{◌≡◌, ◌↔◌, IfOk, IsTrue, map};
ghost use Rattle.std.specs.List.{Contains, filter_map};
ghost use Rattle.guppy_packages.specs.Metadata.{package_graph_of, package_id_of, package_number_of};
ghost use Rattle.feature_labels.specs.Names.{label_of};
ghost use Rattle.feature_labels.specs.Names.LabelName.{base, named, optional};
ghost use Rattle.feature_labels.specs.Lists.{Ascends, SameLabels, TextsAscend, ids_of_labels, name_if_named, name_if_optional, labels_shown};
ghost use Rattle.feature_labels.specs.Orders.{list_eq, list_eq_equiv};
ghost use Rattle.std.specs.Cmp.{partial_equiv_from_equiv};

mod iterators;

use crate::display_features::DisplayFeatures;
use crate::feature_label::FeatureLabel;
use guppy_packages::PackageMetadata;
pub use iterators::{IntoIter, Iter, NamedFeatures, OptionalDeps};
use std::alloc::{AllocError, Global};
use std::fmt;
use std::marker::Model;

/// A sorted list of features of one package, without repeats.
///
/// A contract sees it as the graph, the number and the id of its package, and the labels.
#[derive(Drop)]
pub struct FeatureList<'g> {
    package: PackageMetadata<'g>,
    labels: Vec<FeatureLabel<'g>>,
}

impl<'g> Model for FeatureList<'g> {
    ghost use Rattle.std.specs.Prelude.{map};
    ghost use Rattle.feature_labels.specs.Lists.{Ascends, ListValue};

    ghost Value = { ListValue };

    ghost use Rattle.guppy_packages.specs.Metadata.{package_graph_of, package_id_of, package_number_of};
    ghost use Rattle.feature_labels.specs.Names.{label_of};

    ghost view = { λ list. record { graph = package_graph_of list.package; number = package_number_of list.package; package_id = package_id_of list.package; labels = map label_of list.labels.items } };

    ghost invariant = { λ list. Ascends (map label_of list.labels.items) };
}

impl<'g> FeatureList<'g> {
    /// Returns the list of `labels`, sorted and without repeats. It isn't checked that `package` has the features. `AllocError`
    /// is the only error.
    pub fn new(
        alloc: Global,
        package: PackageMetadata<'g>,
        labels: &[FeatureLabel<'g>],
    ) -> Result<FeatureList<'g>, AllocError>
        ensures graph { IfOk result (λ list. list.graph ≡ package_graph_of «package».entry) }
        ensures number { IfOk result (λ list. list.number ≡ package_number_of «package».entry) }
        ensures of_package { IfOk result (λ list. list.package_id ≡ package_id_of «package».entry) }
        ensures same { IfOk result (λ list. SameLabels (map label_of labels.now) list.labels) }
        ensures ascends { IfOk result (λ list. Ascends list.labels) }
    {
        let mut labels = labels.to_vec(alloc)?;
        labels.sort_unstable();
        labels.dedup();
        Ok(FeatureList { package, labels })
    }

    /// Returns the package of the features.
    pub fn package(&self) -> &PackageMetadata<'g>
        ensures graph { package_graph_of result.now ≡ self.now.graph }
        ensures number { package_number_of result.now ≡ self.now.number }
        ensures id { package_id_of result.now ≡ self.now.package_id }
    {
        &self.package
    }

    /// Returns whether the list contains `label`.
    pub fn contains(&self, label: FeatureLabel<'_>) -> bool
        ensures { IsTrue result ↔ Contains self.now.labels (label_of label.entry) }
    {
        self.labels.binary_search(&label).is_ok()
    }

    /// Returns whether the list contains the base feature: the package with no feature enabled.
    pub fn has_base(&self) -> bool
        ensures { IsTrue result ↔ Contains self.now.labels base }
    {
        self.contains(FeatureLabel::Base)
    }

    /// Returns whether the list contains the named feature `feature_name`.
    pub fn has_named_feature(&self, feature_name: &str) -> bool
        ensures { IsTrue result ↔ Contains self.now.labels (named feature_name.now) }
    {
        self.contains(FeatureLabel::Named(feature_name))
    }

    /// Returns whether the list contains the optional dependency `dep_name`.
    pub fn has_optional_dependency(&self, dep_name: &str) -> bool
        ensures { IsTrue result ↔ Contains self.now.labels (optional dep_name.now) }
    {
        self.contains(FeatureLabel::OptionalDependency(dep_name))
    }

    /// Returns the labels, ascending.
    pub fn labels(&self) -> &[FeatureLabel<'g>]
        ensures value { map label_of result.now ≡ self.now.labels }
        ensures ascends { Ascends self.now.labels }
    {
        self.labels.as_slice()
    }

    /// Returns the names of the named features, ascending.
    #[tactic(auto, using(crate::proofs::Texts::names_ascend))]
    pub fn named_features<'a>(&'a self) -> NamedFeatures<'g, 'a>
        ensures value { result ≡ filter_map name_if_named self.now.labels }
        ensures ascends { TextsAscend result }
    {
        NamedFeatures::new(self.labels())
    }

    /// Returns the names of the optional dependencies, ascending.
    #[tactic(auto, using(crate::proofs::Texts::optional_names_ascend))]
    pub fn optional_deps<'a>(&'a self) -> OptionalDeps<'g, 'a>
        ensures value { result ≡ filter_map name_if_optional self.now.labels }
        ensures ascends { TextsAscend result }
    {
        OptionalDeps::new(self.labels())
    }

    /// Returns the ids of the features, in the order of the labels.
    pub fn iter<'a>(&'a self) -> Iter<'g, 'a>
        ensures { result ≡ ids_of_labels self.now.package_id self.now.labels }
    {
        Iter::new(self)
    }

    /// Returns a value that prints the labels with `, ` between neighbours.
    pub fn display_features<'a>(&'a self) -> DisplayFeatures<'g, 'a>
        ensures { labels_shown result ≡ self.now.labels }
    {
        DisplayFeatures::new(self.labels())
    }

    /// Returns the labels, ascending, as a vector.
    pub fn into_labels(self) -> Vec<FeatureLabel<'g>>
        ensures value { map label_of result.items ≡ self.entry.labels }
        ensures ascends { Ascends self.entry.labels }
    {
        let FeatureList { package: _, labels } = self;
        labels
    }

    /// Returns an equal list. `AllocError` is the only error.
    pub fn try_clone(&self, alloc: Global) -> Result<FeatureList<'g>, AllocError>
        ensures { IfOk result (λ list. list ≡ self.now) }
    {
        Ok(FeatureList {
            package: self.package,
            labels: self.labels().to_vec(alloc)?,
        })
    }
}

/// Compares the packages' ids, in whichever graphs, and the labels.
impl PartialEq for FeatureList<'_> {
    ghost eq = { list_eq };

    ghost laws = { partial_equiv_from_equiv list_eq_equiv };

    fn eq(&self, other: &Self) -> bool
        ensures value { result ≡ list_eq self.now other.now }
        ensures same { IsTrue result ↔ ((self.now.package_id ≡ other.now.package_id) × (self.now.labels ≡ other.now.labels)) }
    {
        self.package.id() == other.package.id() && self.labels == other.labels
    }
}

impl Eq for FeatureList<'_> {
    ghost laws = { list_eq_equiv };
}

impl fmt::Debug for FeatureList<'_> {
    fn fmt<W: fmt::Write>(&self, f: &mut fmt::Formatter<W>) -> fmt::Result {
        f.debug_struct("FeatureList")
            .field("package", self.package.id())
            .field("labels", &self.display_features())
            .finish()
    }
}
