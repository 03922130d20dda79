//! The number of a feature, and flags of features.
ghost use Rattle.std.specs.Prelude.{◌≡◌, ℕ, IfOk, IfSome, Some, false, replicate, slice_get};
ghost use Rattle.cargo_workspaces.specs.Views.{package_text};
ghost use Rattle.cargo_workspaces.specs.Workspaces.{FeatureText};
ghost use Rattle.feats_unused.specs.inner.Marks as spec;

use cargo_workspaces::Package;
use std::alloc::{AllocError, Global};

/// Returns the number of the feature `name` of `package`, if it has it.
pub(crate) fn feature_number(package: &Package<'_>, name: &str) -> Option<usize>
    requires { spec.HasSortedFeatures (package_text «package».now) }
    ensures found { IfSome result (λ k. (f : FeatureText) × (slice_get (package_text «package».now).features k ≡ Some f) × (f.name ≡ name.now)) }
    ensures all { (k : ℕ) (f : FeatureText) → slice_get (package_text «package».now).features k ≡ Some f → f.name ≡ name.now → result ≡ Some k }
{
    let place = package
        .features
        .binary_search_by(|feature| feature.name.cmp(&name));
    match place {
        Ok(number) => Some(number),
        Err(_) => None,
    }
}

/// Returns the flag with the number `number`; false past the end.
pub(crate) fn flag_at(flags: &[bool], number: usize) -> bool
    ensures { result ≡ spec.flag flags.now number }
{
    match flags.get(number) {
        Some(flag) => *flag,
        None => false,
    }
}

/// Returns `count` flags that are false.
pub(crate) fn unmarked(alloc: Global, count: usize) -> Result<Vec<bool>, AllocError>
    ensures { IfOk result (λ flags. flags.items ≡ replicate count false) }
{
    vec![in alloc; false; count]
}
