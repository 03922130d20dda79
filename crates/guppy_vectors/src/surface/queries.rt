//! Calls on feature queries.
use crate::shared::{Out, direction_of};
use crate::surface::items::{tell_counted, tell_end, tell_first};
use crate::surface::told::{tell_answer, tell_error, tell_members, tell_set};
use guppy_features::{Error, FeatureGraph, FeatureId, FeatureQuery};
use std::alloc::Global;

/// Writes the direction of `query`, its initial features, and the set that it resolves to.
fn tell_query(out: &Out, alloc: Global, query: FeatureQuery<'_>) {
    out.debug(query.direction());
    out.part(" from ");
    tell_members(out, query.initials());
    tell_set(out, "", query.resolve(alloc));
}

/// Writes `query` and the set that it resolves to, or the error.
pub fn tell(out: &Out, alloc: Global, query: Result<FeatureQuery<'_>, Error<'_>>) {
    match query {
        Ok(query) => tell_query(out, alloc, query),
        Err(error) => tell_error(out, error),
    }
}

/// Writes the first initial feature and package, and drops their iterators early. Then writes whether new iterators return
/// `None` after their end.
fn items(out: &Out, query: &FeatureQuery<'_>) {
    tell_first(out, query.initials().ids_by_node());
    tell_end(
        out,
        "then ",
        " and ",
        " left ",
        query.initials().ids_by_node(),
    );
    tell_first(out, query.initial_packages());
    tell_end(out, "then ", " and ", " left ", query.initial_packages());
    tell_members(out, query.initials());
}

/// Writes whether `query` starts from the package of the first id, and whether its initial features contain that package.
fn of_package(out: &Out, query: &FeatureQuery<'_>, ids: &[FeatureId<'_>]) {
    if let Some(id) = ids.first() {
        let package_id = id.package_id();
        tell_answer(out, "", query.starts_from_package(package_id));
        tell_answer(out, "", query.initials().contains_package(package_id));
    }
}

/// Makes the call `name` on `query`, and writes its result.
fn query_call(
    out: &Out,
    alloc: Global,
    name: &str,
    query: FeatureQuery<'_>,
    ids: &[FeatureId<'_>],
) {
    match name {
        "packages" => tell_counted(out, ":", query.initial_packages()),
        "items" => items(out, &query),
        "of-package" => of_package(out, &query, ids),
        "copy" => {
            tell(out, alloc, query.try_clone(alloc));
            tell_query(out, alloc, query);
        }
        _ => tell_query(out, alloc, query),
    }
}

/// Returns `ids` without the first.
fn others<'i, 'a>(ids: &'i [FeatureId<'a>]) -> &'i [FeatureId<'a>] {
    if ids.is_empty() {
        return ids;
    }
    &ids[1..]
}

/// Makes the call `name` on the query of `ids`, or writes the error. `directed` and `copy` read `direction`; `reverse` is
/// reverse, and the others are forward. `of-package` leaves the first id out of its query.
pub fn of_query(
    out: &Out,
    alloc: Global,
    features: FeatureGraph<'_>,
    name: &str,
    direction: &str,
    ids: &[FeatureId<'_>],
) {
    let query = match name {
        "directed" | "copy" => features.query_directed(alloc, ids, direction_of(direction)),
        "reverse" => features.query_reverse(alloc, ids),
        "of-package" => features.query_forward(alloc, others(ids)),
        _ => features.query_forward(alloc, ids),
    };
    match query {
        Ok(query) => query_call(out, alloc, name, query, ids),
        Err(error) => tell_error(out, error),
    }
}

/// Writes whether the set of all `ids` after the first contains the first.
pub fn has(out: &Out, alloc: Global, features: FeatureGraph<'_>, ids: &[FeatureId<'_>]) {
    if let Some((id, others)) = ids.split_first() {
        match features.resolve_ids(alloc, others) {
            Ok(set) => tell_answer(out, "", set.contains(*id)),
            Err(error) => tell_error(out, error),
        }
    }
}
