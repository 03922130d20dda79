//! Calls on two sets or two features, and on cycles.
use crate::shared::Out;
use crate::surface::told::{tell_answer, tell_error, tell_members, tell_set};
use guppy_features::{
    Error, FeatureGraph, FeatureGraphData, FeatureGraphExt, FeatureId, FeatureSet,
};
use std::alloc::Global;

/// Writes the union, intersection and both differences of `one` and `other` if `same_graph` is true for them.
fn tell_operations<'g>(out: &Out, alloc: Global, one: &FeatureSet<'g>, other: &FeatureSet<'g>) {
    if one.same_graph(other) {
        tell_set(out, "union ", one.union(alloc, other));
        tell_set(out, "intersection ", one.intersection(alloc, other));
        tell_set(out, "difference ", one.difference(alloc, other));
        let rest = one.symmetric_difference(alloc, other);
        tell_set(out, "symmetric difference ", rest);
    }
}

/// Writes comparisons of `one` and `other`, the results of the set operations, and then the members of both.
fn tell_pair<'g>(out: &Out, alloc: Global, one: &FeatureSet<'g>, other: &FeatureSet<'g>) {
    out.answer("same graph ", one.same_graph(other));
    out.answer(", equal ", one == other);
    out.answer_line(", unequal ", one != other);
    tell_operations(out, alloc, one, other);
    out.part("one ");
    tell_members(out, one);
    out.part("other ");
    tell_members(out, other);
}

/// Returns the ids before and after the word `|`; all of `ids` and an empty slice without one.
fn halves<'i, 'a>(ids: &'i [FeatureId<'a>]) -> (&'i [FeatureId<'a>], &'i [FeatureId<'a>]) {
    for place in 0..ids.len() {
        if ids[place].package_id().repr() == "|" {
            return (&ids[..place], &ids[place + 1..]);
        }
    }
    (ids, &[])
}

/// Compares `one` with `other`, or writes the error of `other`.
fn compare_with<'g>(
    out: &Out,
    alloc: Global,
    one: &FeatureSet<'g>,
    other: Result<FeatureSet<'g>, Error<'_>>,
) {
    match other {
        Ok(other) => {
            tell_pair(out, alloc, one, &other);
            drop(other);
        }
        Err(error) => tell_error(out, error),
    }
}

/// Compares the sets of the ids before `|`, over `features`, and after it, over `others`.
fn compare<'g>(
    out: &Out,
    alloc: Global,
    features: FeatureGraph<'g>,
    others: FeatureGraph<'g>,
    ids: &[FeatureId<'_>],
) {
    let (one, other) = halves(ids);
    match features.resolve_ids(alloc, one) {
        Ok(one) => {
            compare_with(out, alloc, &one, others.resolve_ids(alloc, other));
            drop(one);
        }
        Err(error) => tell_error(out, error),
    }
}

/// Compares the sets of the ids before `|`, over `features`, and after it, over a graph that is built under `stamp`.
fn compare_built(
    out: &Out,
    alloc: Global,
    features: FeatureGraph<'_>,
    stamp: u64,
    ids: &[FeatureId<'_>],
) {
    let graph = features.package_graph();
    match FeatureGraphData::build(alloc, graph, stamp) {
        Ok(built) => {
            compare(out, alloc, features, graph.feature_graph(&built), ids);
            drop(built);
        }
        Err(_) => out.line("out of memory"),
    }
}

/// Compares the sets of the ids before and after `|`. If `stamp` is a number, the second set is over a graph that is built
/// under that stamp.
pub fn pair(
    out: &Out,
    alloc: Global,
    features: FeatureGraph<'_>,
    stamp: &str,
    ids: &[FeatureId<'_>],
) {
    match stamp.parse::<u64>() {
        Ok(stamp) => compare_built(out, alloc, features, stamp, ids),
        Err(_) => compare(out, alloc, features, features, ids),
    }
}

/// Writes whether the first feature depends on the second directly, whether it does over a path, and whether both are on a
/// cycle. Writes nothing unless `ids` are two.
pub fn tied(out: &Out, alloc: Global, features: FeatureGraph<'_>, ids: &[FeatureId<'_>]) {
    if let [a, b] = ids {
        tell_answer(out, "", features.directly_depends_on(*a, *b));
        tell_answer(out, "", features.depends_on(alloc, *a, *b));
        tell_answer(out, "", features.cycles().is_cyclic(*a, *b));
    }
}

/// Writes the ids of `cycle` on a line, or the error.
fn tell_cycle(out: &Out, cycle: Result<Vec<FeatureId<'_>>, Error<'_>>) {
    match cycle {
        Ok(ids) => {
            out.part("cycle");
            for id in &ids {
                out.id(*id);
            }
            out.line("");
        }
        Err(error) => tell_error(out, error),
    }
}

/// Writes the first cycle, if there is one, and drops the iterator.
pub fn first_cycle(out: &Out, alloc: Global, features: FeatureGraph<'_>) {
    if let Some(cycle) = features.cycles().all_cycles(alloc).next() {
        tell_cycle(out, cycle);
    }
}

/// Writes each cycle on a line, and then whether the iterator returns `None` again after its end.
pub fn cycles(out: &Out, alloc: Global, features: FeatureGraph<'_>) {
    let mut cycles = features.cycles().all_cycles(alloc);
    while let Some(cycle) = cycles.next() {
        tell_cycle(out, cycle);
    }
    out.answer_line("ended ", cycles.next().is_none());
}
