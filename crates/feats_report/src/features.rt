//! The features of the packages that are built.
ghost use Rattle.std.specs.Prelude.{◌≡◌, ◌++◌, IfOk, OnOk, map};
ghost use Rattle.cargo_plans.specs.built_parts.BuiltViews.{builds_in, is_built_in};
ghost use Rattle.cargo_workspaces.specs.Views.{package_text};
ghost use Rattle.feats_report.specs.Features as spec;

use cargo_plans::Side;
use cargo_plans::built_parts::BuiltParts;
use cargo_workspaces::Package;
use feats_list::features::feature_objects;
use std::alloc::{AllocError, Global};

/// Returns whether package `ix` is built on one of the sides.
pub(crate) fn is_anywhere(parts: &BuiltParts<'_>, ix: usize) -> bool
    ensures { result ≡ spec.is_anywhere (builds_in parts.now) ix }
{
    parts.builds(Side::Target, ix) || parts.builds(Side::Host, ix)
}

/// Appends the lines about the features of `package`, which is package `ix`, if it is built.
fn push_package(
    alloc: Global,
    text: &mut Vec<u8>,
    parts: &BuiltParts<'_>,
    ix: usize,
    package: &Package<'_>,
) -> Result<(), AllocError>
    ensures { OnOk result (text.new.items ≡ text.old.items ++ spec.package_lines (builds_in parts.now) (is_built_in parts.now) ix (package_text «package».now)) }
{
    if is_anywhere(parts, ix) {
        let lines = feature_objects(alloc, parts, ix, package)?;
        text.extend_from_slice(&lines)?;
    }
    Ok(())
}

/// Returns a line for each feature and each optional dependency of those of `packages` that are built, in the order of their numbers.
pub(crate) fn features_of(
    alloc: Global,
    parts: &BuiltParts<'_>,
    packages: &[Package<'_>],
) -> Result<Vec<u8>, AllocError>
    ensures { IfOk result (λ text. text.items ≡ spec.features_of (builds_in parts.now) (is_built_in parts.now) (map package_text packages.now)) }
{
    let mut text = Vec::new(alloc);
    for (ix, package) in packages.iter().enumerate() {
        push_package(alloc, &mut text, parts, ix, package)?;
    }
    Ok(text)
}
