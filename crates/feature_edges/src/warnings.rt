//! Warnings of items and of listed names whose target doesn't exist.
ghost use Rattle.std.specs.Prelude.{◌≡◌, ◌++◌, ◌∷◌, [], OnOk, codes, string_bytes, if◌then◌else◌};
ghost use Rattle.guppy_packages.specs.Metadata.{package_id_of, package_table_of};
ghost use Rattle.guppy_packages.specs.Tables.{has_feature, has_name};
ghost use Rattle.feature_edges.specs.Warnings.{warnings_in, missing_feature, self_loop, lack_of};

use guppy_packages::{PackageId, PackageMetadata};
use std::alloc::{AllocError, Global};

/// A warning of building a feature graph: an item or a listed name has no target.
#[derive(PartialEq, Eq, Debug, Drop)]
pub enum FeatureGraphWarning {
    /// The package doesn't have the feature or dependency that an item or a listed name requests.
    MissingFeature {
        package_id: PackageId,
        feature_name: String,
    },
    /// The feature has an item that names the feature itself.
    SelfLoop {
        package_id: PackageId,
        feature_name: String,
    },
}

/// Appends the warning that the package doesn't have `name`.
pub(crate) fn push_missing(
    alloc: Global,
    warnings: &mut Vec<FeatureGraphWarning>,
    metadata: PackageMetadata<'_>,
    name: String,
) -> Result<(), AllocError>
    ensures { OnOk result (warnings_in warnings.new ≡ warnings_in warnings.old ++ missing_feature (package_id_of metadata.entry) (string_bytes name) ∷ []) }
{
    warnings.push(FeatureGraphWarning::MissingFeature {
        package_id: metadata.id().try_clone(alloc)?,
        feature_name: name,
    })?;
    Ok(())
}

/// Appends the warning that the feature `name` of the package names itself.
pub(crate) fn push_self_loop(
    alloc: Global,
    warnings: &mut Vec<FeatureGraphWarning>,
    metadata: PackageMetadata<'_>,
    name: &str,
) -> Result<(), AllocError>
    ensures { OnOk result (warnings_in warnings.new ≡ warnings_in warnings.old ++ self_loop (package_id_of metadata.entry) name.now ∷ []) }
{
    warnings.push(FeatureGraphWarning::SelfLoop {
        package_id: metadata.id().try_clone(alloc)?,
        feature_name: String::from_str(alloc, name)?,
    })?;
    Ok(())
}

/// Appends a warning that the package has no named feature `name`, unless `found` says that it has one.
pub(crate) fn push_lack(
    alloc: Global,
    warnings: &mut Vec<FeatureGraphWarning>,
    metadata: PackageMetadata<'_>,
    name: &str,
    found: bool,
) -> Result<(), AllocError>
    requires { found ≡ has_feature name.now (package_table_of metadata).features }
    ensures { OnOk result (warnings_in warnings.new ≡ warnings_in warnings.old ++ lack_of (package_table_of metadata.entry) name.now) }
{
    if found {
        return Ok(());
    }
    push_missing(alloc, warnings, metadata, String::from_str(alloc, name)?)
}

/// Appends a warning that the package has no optional dependency `name`, unless `found` says that it has one.
pub(crate) fn push_lack_of_dependency(
    alloc: Global,
    warnings: &mut Vec<FeatureGraphWarning>,
    metadata: PackageMetadata<'_>,
    name: &str,
    found: bool,
) -> Result<(), AllocError>
    requires { found ≡ has_name name.now (package_table_of metadata).optional_names }
    ensures { OnOk result (warnings_in warnings.new ≡ warnings_in warnings.old ++ (if has_name name.now (package_table_of metadata.entry).optional_names then [] else missing_feature (package_id_of metadata.entry) (codes "dep:" ++ name.now) ∷ [])) }
{
    if found {
        return Ok(());
    }
    let mut text = String::from_str(alloc, "dep:")?;
    text.push_str(name)?;
    push_missing(alloc, warnings, metadata, text)
}
