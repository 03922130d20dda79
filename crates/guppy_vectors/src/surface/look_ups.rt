//! Calls that look up facts of the graph or of one feature.
use crate::shared::{Out, tell_warning};
use crate::surface::told::{tell_answer, tell_error};
use guppy_features::{Error, FeatureGraph, FeatureId, FeatureList, FeatureMetadata};
use std::alloc::Global;

/// Writes the counts of packages, features and links, and the stamp.
pub fn figures(out: &Out, features: FeatureGraph<'_>) {
    out.number("", features.package_graph().package_count());
    out.number(" packages, ", features.feature_count());
    out.number(" features, ", features.link_count());
    out.part(" links, stamp ");
    out.shown(features.stamp());
    out.line("");
}

/// Writes the count of the build warnings, and each warning on a line.
pub fn warnings(out: &Out, features: FeatureGraph<'_>) {
    let warnings = features.build_warnings();
    out.number("", warnings.len());
    out.line("");
    for warning in warnings {
        tell_warning(out, warning);
        out.line("");
    }
}

/// Writes `verified` if each conditional link is present for some kind, or the error.
pub fn verify(out: &Out, features: FeatureGraph<'_>) {
    match features.verify() {
        Ok(()) => out.line("verified"),
        Err(error) => tell_error(out, error),
    }
}

/// Writes the id, package and kind of a feature, or the error.
fn tell_metadata(out: &Out, metadata: Result<FeatureMetadata<'_>, Error<'_>>) {
    match metadata {
        Ok(metadata) => {
            out.shown(metadata.feature_id());
            out.text(" of ", metadata.package_id().repr());
            out.text(" ", metadata.package().id().repr());
            out.part(" ");
            out.debug_line(metadata.label().kind());
        }
        Err(error) => tell_error(out, error),
    }
}

/// Writes the features of `list` on a line, or the error.
pub fn tell_list(out: &Out, list: Result<FeatureList<'_>, Error<'_>>) {
    match list {
        Ok(list) => {
            out.shown(list.display_features());
            out.line("");
        }
        Err(error) => tell_error(out, error),
    }
}

/// Makes the call `name` on the feature `id`.
fn look_up(out: &Out, alloc: Global, features: FeatureGraph<'_>, name: &str, id: FeatureId<'_>) {
    match name {
        "contains" => out.answer_line("", features.contains(id)),
        "metadata" => tell_metadata(out, features.metadata(id)),
        "default" => tell_answer(out, "", features.is_default_feature(id)),
        "list" => tell_list(out, features.all_features_for(alloc, id.package_id())),
        _ => out.line("no such call"),
    }
}

/// Makes the call `name` on each feature of `ids`.
pub fn look_ups(
    out: &Out,
    alloc: Global,
    features: FeatureGraph<'_>,
    name: &str,
    ids: &[FeatureId<'_>],
) {
    for id in ids {
        look_up(out, alloc, features, name, *id);
    }
}
