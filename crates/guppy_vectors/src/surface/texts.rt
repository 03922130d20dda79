//! The call that writes `Debug` texts.
use crate::shared::Out;
use crate::surface::told::tell_error;
use guppy_features::{
    Error, FeatureFilterFn, FeatureGraph, FeatureId, StandardFeatures, feature_id_filter,
    named_feature_filter,
};
use std::alloc::Global;
use std::fmt::Debug;

/// Writes the `Debug` text of `made`, or the error.
fn text<T: Debug + Drop>(out: &Out, made: Result<T, Error<'_>>) {
    match made {
        Ok(made) => out.debug_line(made),
        Err(error) => tell_error(out, error),
    }
}

/// Writes the `Debug` texts of the feature `id` and its list.
fn texts_of_feature(out: &Out, alloc: Global, features: FeatureGraph<'_>, id: FeatureId<'_>) {
    text(out, features.metadata(id));
    text(out, features.all_features_for(alloc, id.package_id()));
}

/// Writes the `Debug` texts of filters.
fn texts_of_filters(out: &Out, alloc: Global, ids: &[FeatureId<'_>]) {
    text(
        out,
        named_feature_filter(alloc, StandardFeatures::None, &["a"]),
    );
    text(out, feature_id_filter(alloc, StandardFeatures::None, ids));
    out.debug_line(FeatureFilterFn::new(|_graph, _id| true));
    for each in StandardFeatures::VALUES {
        out.debug_line(*each);
    }
}

/// Writes the `Debug` texts of the graph, of the first feature and its list, of the query and set of `ids`, and of filters.
pub fn texts(out: &Out, alloc: Global, features: FeatureGraph<'_>, ids: &[FeatureId<'_>]) {
    out.debug_line(features);
    if let Some(id) = ids.first() {
        texts_of_feature(out, alloc, features, *id);
    }
    text(out, features.query_forward(alloc, ids));
    text(out, features.resolve_ids(alloc, ids));
    texts_of_filters(out, alloc, ids);
}
