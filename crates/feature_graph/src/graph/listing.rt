//! The labels of a package.
ghost use Rattle.std.specs.Prelude.{◌≡◌, ◌++◌, OnOk, IfOk, map};
ghost use Rattle.std.specs.String.{string_bytes};
ghost use Rattle.guppy_packages.specs.Metadata.{package_graph_of, package_id_of, package_number_of, package_table_of};
ghost use Rattle.guppy_packages.specs.NamedFeature.{feature_table};
ghost use Rattle.feature_labels.specs.Names.{label_of};
ghost use Rattle.feature_labels.specs.Names.LabelName.{named, optional};
ghost use Rattle.feature_labels.specs.Lists.{Ascends, SameLabels};
ghost use Rattle.feature_core.specs.Nodes.{labels_of};

use feature_labels::{FeatureLabel, FeatureList};
use guppy_packages::{NamedFeature, PackageMetadata};
use std::alloc::{AllocError, Global};

/// Appends the labels of `features`.
fn push_named<'g>(
    labels: &mut Vec<FeatureLabel<'g>>,
    features: &'g [NamedFeature],
) -> Result<(), AllocError>
    ensures { OnOk result (map label_of labels.new.items ≡ map label_of labels.old.items ++ map (λ f. named f.name) (map feature_table features.now)) }
{
    'features: for feature in features {
        labels.push(FeatureLabel::Named(feature.name()))?;
    }
    Ok(())
}

/// Appends the labels of optional dependencies with these names.
fn push_optional<'g>(
    labels: &mut Vec<FeatureLabel<'g>>,
    names: &'g [String],
) -> Result<(), AllocError>
    ensures { OnOk result (map label_of labels.new.items ≡ map label_of labels.old.items ++ map (λ d. optional d) (map string_bytes names.now)) }
{
    'names: for name in names {
        labels.push(FeatureLabel::OptionalDependency(name.as_str()))?;
    }
    Ok(())
}

/// Returns the labels of a package, in the order of their nodes.
fn package_labels<'g>(
    alloc: Global,
    package: PackageMetadata<'g>,
) -> Result<Vec<FeatureLabel<'g>>, AllocError>
    ensures { IfOk result (λ labels. map label_of labels.items ≡ labels_of (package_table_of «package».entry)) }
{
    let mut labels = Vec::new(alloc);
    labels.push(FeatureLabel::Base)?;
    push_named(&mut labels, package.named_features())?;
    push_optional(&mut labels, package.optional_deps())?;
    Ok(labels)
}

/// Returns all features of a package.
pub(crate) fn package_list<'g>(
    alloc: Global,
    package: PackageMetadata<'g>,
) -> Result<FeatureList<'g>, AllocError>
    ensures graph { IfOk result (λ list. list.graph ≡ package_graph_of «package».entry) }
    ensures number { IfOk result (λ list. list.number ≡ package_number_of «package».entry) }
    ensures of_package { IfOk result (λ list. list.package_id ≡ package_id_of «package».entry) }
    ensures labels { IfOk result (λ list. SameLabels (labels_of (package_table_of «package».entry)) list.labels) }
    ensures ascends { IfOk result (λ list. Ascends list.labels) }
{
    let labels = package_labels(alloc, package)?;
    FeatureList::new(alloc, package, labels.as_slice())
}
