//! What a list shows of each feature and each optional dependency.
ghost use Rattle.std.specs.Prelude.{◌≡◌, ◌++◌, IfOk, OnOk, map};
ghost use Rattle.cargo_plans.specs.built_parts.BuiltViews.{is_built_in};
ghost use Rattle.cargo_workspaces.specs.Views.{feature_text, package_text, texts};
ghost use Rattle.feature_labels.specs.Names.{label_of};
ghost use Rattle.feats_list.specs.features.Lists as spec;
ghost use Rattle.feats_list.specs.features.inner.Listed.{listed_text};

use crate::features::optional_names::optional_names;
use cargo_plans::built_parts::BuiltParts;
use cargo_workspaces::{Feature, Package};
use feature_labels::FeatureLabel;
use plan_rows::Side;
use std::alloc::{AllocError, Global};

/// A feature or an optional dependency: on which sides it is built, and its items.
#[derive(Clone, Copy)]
pub(crate) struct Listed<'p, 'v> {
    pub(crate) label: FeatureLabel<'v>,
    pub(crate) target: bool,
    pub(crate) host: bool,
    pub(crate) items: &'p [&'v str],
}

/// Returns what is shown of `label`, which is of package `ix` and has these items.
fn listed_of<'p, 'v>(
    parts: &BuiltParts<'_>,
    ix: usize,
    label: FeatureLabel<'v>,
    items: &'p [&'v str],
) -> Listed<'p, 'v>
    ensures { listed_text result ≡ spec.listed_of (is_built_in parts.now) ix (label_of label.entry) (texts items.entry.now) }
{
    Listed {
        label,
        target: parts.is_built(Side::Target, ix, label),
        host: parts.is_built(Side::Host, ix, label),
        items,
    }
}

/// Appends what is shown of `features`, which are those of package `ix`.
fn push_features<'p, 'v>(
    list: &mut Vec<Listed<'p, 'v>>,
    parts: &BuiltParts<'_>,
    ix: usize,
    features: &'p [Feature<'v>],
) -> Result<(), AllocError>
    ensures { OnOk result (map listed_text list.new.items ≡ map listed_text list.old.items ++ spec.listed_features (is_built_in parts.now) ix (map feature_text features.entry.now)) }
{
    for feature in features {
        list.push(listed_of(parts, ix, FeatureLabel::Named(feature.name), &feature.items))?;
    }
    Ok(())
}

/// Returns what is shown of the optional dependency `name`, which is of package `ix`.
fn listed_dependency<'p, 'v>(parts: &BuiltParts<'_>, ix: usize, name: &'v str) -> Listed<'p, 'v>
    ensures { listed_text result ≡ spec.listed_dependency (is_built_in parts.now) ix name.entry.now }
{
    listed_of(parts, ix, FeatureLabel::OptionalDependency(name), &[])
}

/// Appends what is shown of the optional dependencies `names`, which are those of package `ix`.
fn push_dependencies<'p, 'v>(
    list: &mut Vec<Listed<'p, 'v>>,
    parts: &BuiltParts<'_>,
    ix: usize,
    names: &[&'v str],
) -> Result<(), AllocError>
    ensures { OnOk result (map listed_text list.new.items ≡ map listed_text list.old.items ++ spec.listed_dependencies (is_built_in parts.now) ix (texts names.now)) }
{
    for &name in names {
        list.push(listed_dependency(parts, ix, name))?;
    }
    Ok(())
}

/// Returns what is shown of package `ix`: its features, and then its optional dependencies.
pub(crate) fn listed_package<'p, 'v>(
    alloc: Global,
    parts: &BuiltParts<'_>,
    ix: usize,
    package: &'p Package<'v>,
) -> Result<Vec<Listed<'p, 'v>>, AllocError>
    ensures { IfOk result (λ list. map listed_text list.items ≡ spec.listed (is_built_in parts.now) ix (package_text «package».entry.now)) }
{
    let names = optional_names(alloc, &package.declarations)?;
    let mut list = Vec::new(alloc);
    push_features(&mut list, parts, ix, &package.features)?;
    push_dependencies(&mut list, parts, ix, &names)?;
    Ok(list)
}

/// Returns whether package `ix` is built on both sides.
pub(crate) fn has_two_sides(parts: &BuiltParts<'_>, ix: usize) -> bool
    ensures { result ≡ spec.has_two_sides (is_built_in parts.now) ix }
{
    parts.is_built(Side::Target, ix, FeatureLabel::Base)
        && parts.is_built(Side::Host, ix, FeatureLabel::Base)
}
