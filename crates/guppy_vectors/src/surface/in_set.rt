//! Calls on a feature set.
use crate::shared::{Failure, Out, cut, direction_of};
use crate::surface::items::{tell_counted, tell_items};
use crate::surface::iterators::{by_package, ends, firsts};
use crate::surface::links::{tell_edge, tell_link};
use crate::surface::look_ups::tell_list;
use crate::surface::parts::parts;
use crate::surface::queries::tell;
use crate::surface::told::{tell_error, tell_members};
use guppy_features::{DependencyDirection, Error, FeatureSet, PackageId, PackageSet};
use std::alloc::Global;

/// Writes whether `copy` is equal to `set`, and its members, or the error.
fn tell_copy(out: &Out, set: &FeatureSet<'_>, copy: Result<FeatureSet<'_>, Error<'_>>) {
    match copy {
        Ok(copy) => {
            out.answer("equal ", copy == *set);
            out.part(", ");
            tell_members(out, &copy);
            drop(copy);
        }
        Err(error) => tell_error(out, error),
    }
}

/// Writes the features in `set` of the package `id`, `none` without any, or the error. Returns `Memory` if an allocation
/// fails for the id.
fn features_for(out: &Out, alloc: Global, set: &FeatureSet<'_>, id: &str) -> Result<(), Failure> {
    let id = PackageId::new(alloc, id)?;
    match set.features_for(alloc, &id) {
        Ok(Some(list)) => tell_list(out, Ok(list)),
        Ok(None) => out.line("none"),
        Err(error) => tell_error(out, error),
    }
    Ok(())
}

/// Writes the count of the packages and their ids in `direction`, or the error.
fn tell_packages(
    out: &Out,
    packages: Result<PackageSet<'_>, Error<'_>>,
    direction: DependencyDirection,
) {
    match packages {
        Ok(packages) => {
            tell_counted(out, ":", packages.packages(direction));
            drop(packages);
        }
        Err(error) => tell_error(out, error),
    }
}

/// Writes each edge between features of `set` on a line.
fn links(out: &Out, set: &FeatureSet<'_>, direction: DependencyDirection) {
    for (from, to, edge) in set.links(direction) {
        tell_edge(out, from, to, edge);
    }
}

/// Writes each conditional link between features of `set` on a line.
fn conditional_links(out: &Out, set: &FeatureSet<'_>, direction: DependencyDirection) {
    for link in set.conditional_links(direction) {
        tell_link(out, link);
    }
}

/// Makes the call `name`, which lists the features or roots of `set` in `direction`.
fn list_call(
    out: &Out,
    alloc: Global,
    set: &FeatureSet<'_>,
    name: &str,
    direction: DependencyDirection,
) {
    match name {
        "feature-ids" => tell_counted(out, ":", set.feature_ids(direction)),
        "features" => tell_counted(out, ":", set.features(direction)),
        "root-ids" => tell_items(out, set.root_ids(alloc, direction)),
        _ => tell_items(out, set.root_features(alloc, direction)),
    }
}

/// Makes the call `name` on `set` in `direction`; `word` is the option after the direction.
fn directed_call(
    out: &Out,
    alloc: Global,
    set: &FeatureSet<'_>,
    name: &str,
    direction: DependencyDirection,
    word: &str,
) {
    match name {
        "feature-ids" | "features" | "root-ids" | "root-features" => {
            list_call(out, alloc, set, name, direction);
        }
        "links" => links(out, set, direction),
        "conditional-links" => conditional_links(out, set, direction),
        "query" => tell(out, alloc, set.to_feature_query(alloc, direction)),
        "packages" => tell_packages(out, set.to_package_set(alloc), direction),
        "by-package" => by_package(out, alloc, set, direction),
        "ends" => ends(out, alloc, set, direction),
        "firsts" => firsts(out, alloc, set, direction),
        _ => parts(out, alloc, set, name, direction, word),
    }
}

/// Makes the call of `words` on `set`. `Memory` is the only error.
fn set_call(out: &Out, alloc: Global, set: &FeatureSet<'_>, words: &str) -> Result<(), Failure> {
    let (name, options) = cut(words);
    match name {
        "copy" => tell_copy(out, set, set.try_clone(alloc)),
        "for" => return features_for(out, alloc, set, options),
        _ => {
            let (direction, word) = cut(options);
            directed_call(out, alloc, set, name, direction_of(direction), word);
        }
    }
    Ok(())
}

/// Makes the call of `words` on `set`, or writes the error of `set`. Returns `Memory` if an allocation of the call fails.
pub fn in_set(
    out: &Out,
    alloc: Global,
    set: Result<FeatureSet<'_>, Error<'_>>,
    words: &str,
) -> Result<(), Failure> {
    match set {
        Ok(set) => {
            let called = set_call(out, alloc, &set, words);
            drop(set);
            called
        }
        Err(error) => {
            tell_error(out, error);
            Ok(())
        }
    }
}
