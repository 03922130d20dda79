//! The features and dependencies of a package, and marked numbers.
ghost use Rattle.std.specs.Prelude.{◌≡◌, ◌<◌, ℕ, IfOk, IsTrue, length, map, nat_eq, nat_lt, replicate, false};
ghost use Rattle.std.specs.List.{filter, list_all, list_any};
ghost use Rattle.plan_words.specs.inner.Lookups.{HasSortedFeatures, Marks};
ghost use Rattle.cargo_workspaces.specs.Views.{package_text};
ghost use Rattle.plan_words.specs.FeatureWords as spec;

use cargo_workspaces::Package;
use std::alloc::{AllocError, Global};

/// Returns whether `package` has the feature `name`.
pub(crate) fn has_feature(package: &Package<'_>, name: &str) -> bool
    requires { HasSortedFeatures (package_text «package».now) }
    ensures { result ≡ spec.has_feature (package_text «package».now) name.now }
{
    package
        .features
        .binary_search_by(|feature| feature.name.cmp(&name))
        .is_ok()
}

/// Returns whether `package` declares the dependency `name`.
pub(crate) fn declares(package: &Package<'_>, name: &str) -> bool
    ensures { result ≡ spec.declares (package_text «package».now) name.now }
{
    for declaration in &package.declarations {
        if declaration.name == name {
            return true;
        }
    }
    false
}

/// Returns whether the last declaration of the dependency `name` of `package` is optional.
fn is_optional(package: &Package<'_>, name: &str) -> bool
    ensures { result ≡ spec.is_optional (package_text «package».now) name.now }
{
    let mut optional = false;
    for declaration in &package.declarations {
        if declaration.name == name {
            optional = declaration.optional;
        }
    }
    optional
}

/// Returns whether a command line may ask for a feature of `package` by the name `name`.
pub(crate) fn may_ask(package: &Package<'_>, name: &str) -> bool
    requires { HasSortedFeatures (package_text «package».now) }
    ensures { result ≡ spec.may_ask (package_text «package».now) name.now }
{
    has_feature(package, name) || is_optional(package, name)
}

/// Returns a list of `count` times false.
fn unmarked(alloc: Global, count: usize) -> Result<Vec<bool>, AllocError>
    ensures { IfOk result (λ list. list.items ≡ replicate count false) }
{
    vec![in alloc; false; count]
}

/// Returns a list of length `count` that is true at `numbers`, each of which is below `count`.
pub(crate) fn marked(
    alloc: Global,
    count: usize,
    numbers: &[usize],
) -> Result<Vec<bool>, AllocError>
    requires { IsTrue (list_all (λ n. nat_lt n count) numbers.now) }
    ensures { IfOk result (λ list. Marks count list.items numbers.now) }
{
    let mut list = unmarked(alloc, count)?;
    for number in numbers {
        list[*number] = true;
    }
    Ok(list)
}
