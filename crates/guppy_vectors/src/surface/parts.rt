//! Calls that split a set by a callback, which logs its arguments.
use crate::shared::Out;
use crate::surface::told::{tell_error, tell_members, tell_set};
use guppy_features::{DependencyDirection, Error, FeatureKind, FeatureMetadata, FeatureSet};
use std::alloc::Global;
use std::cell::Cell;

/// A callback that writes each feature it is called with on a line after `? `, and counts its calls.
#[derive(Drop)]
struct Asked<'o> {
    out: &'o Out,
    /// True to accept every other feature from the first on; false to accept bases.
    each_other: bool,
    calls: Cell<usize>,
}

impl Asked<'_> {
    /// Counts a call and writes its feature.
    fn write(&self, feature: FeatureMetadata<'_>) {
        self.calls.set(self.calls.get().saturating_add(1));
        self.out.part("?");
        self.out.id(feature.feature_id());
        self.out.line("");
    }

    /// Logs the call, and returns whether `feature` is accepted.
    fn accepts(&self, feature: FeatureMetadata<'_>) -> bool {
        self.write(feature);
        if self.each_other {
            self.calls.get() % 2 == 1
        } else {
            feature.feature_id().is_base()
        }
    }

    /// Logs the call, and returns true for a named feature, false for an optional dependency and `None` for a base.
    fn is_named(&self, feature: FeatureMetadata<'_>) -> Option<bool> {
        self.write(feature);
        match feature.label().kind() {
            FeatureKind::Base => None,
            FeatureKind::Named => Some(true),
            FeatureKind::OptionalDependency => Some(false),
        }
    }
}

/// Writes the members of both parts, or the error.
fn tell_parts(out: &Out, parts: Result<(FeatureSet<'_>, FeatureSet<'_>), Error<'_>>) {
    match parts {
        Ok((one, other)) => {
            tell_members(out, &one);
            drop(one);
            tell_members(out, &other);
            drop(other);
        }
        Err(error) => tell_error(out, error),
    }
}

/// Splits `set` by the features that `asked` accepts: `filter` writes one part, and `partition` both.
fn by_accepted(
    out: &Out,
    alloc: Global,
    set: &FeatureSet<'_>,
    name: &str,
    direction: DependencyDirection,
    asked: &Asked<'_>,
) {
    let mut accepts = |feature| asked.accepts(feature);
    if name == "filter" {
        tell_set(out, "", set.filter(alloc, direction, &mut accepts));
    } else {
        tell_parts(out, set.partition(alloc, direction, &mut accepts));
    }
}

/// Splits `set` into named features and optional dependencies.
fn by_kind(
    out: &Out,
    alloc: Global,
    set: &FeatureSet<'_>,
    direction: DependencyDirection,
    asked: &Asked<'_>,
) {
    let mut is_named = |feature| asked.is_named(feature);
    tell_parts(out, set.filter_partition(alloc, direction, &mut is_named));
}

/// Splits `set` in `direction`: `filter` and `partition` by the features that a callback accepts, and `filter-partition` into
/// named features and optional dependencies. Then writes the count of calls.
pub fn parts(
    out: &Out,
    alloc: Global,
    set: &FeatureSet<'_>,
    name: &str,
    direction: DependencyDirection,
    word: &str,
) {
    let asked = Asked {
        out,
        each_other: word == "odd",
        calls: Cell::new(0),
    };
    match name {
        "filter" | "partition" => by_accepted(out, alloc, set, name, direction, &asked),
        "filter-partition" => by_kind(out, alloc, set, direction, &asked),
        _ => return out.line("no such call"),
    }
    out.number("asked ", asked.calls.get());
    out.line("");
}
