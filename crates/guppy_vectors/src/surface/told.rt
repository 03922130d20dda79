//! Errors, answers and sets as text.
use crate::shared::Out;
use crate::surface::items::tell_counted;
use guppy_features::{Error, FeatureSet};

/// Writes `error` on a line.
pub fn tell_error(out: &Out, error: Error<'_>) {
    match error {
        Error::UnknownPackageId(id) => {
            out.text("unknown package ", id.repr());
        }
        Error::UnknownFeatureId(id) => {
            out.part("unknown feature");
            out.id(id);
        }
        Error::FeatureGraphInternalError { from, to } => {
            out.part("absent link from");
            out.id(from);
            out.part(" to");
            out.id(to);
        }
        Error::Memory => out.part("out of memory"),
    }
    out.line("");
}

/// Writes `before` and the answer on a line, or the error.
pub fn tell_answer(out: &Out, before: &str, answer: Result<bool, Error<'_>>) {
    match answer {
        Ok(answer) => out.answer_line(before, answer),
        Err(error) => tell_error(out, error),
    }
}

/// Writes the count of features in `set`, and the features in the order of their nodes.
pub fn tell_members(out: &Out, set: &FeatureSet<'_>) {
    let between = if set.is_empty() { " empty:" } else { ":" };
    tell_counted(out, between, set.ids_by_node());
}

/// Writes `before` and the members of `set`, or the error.
pub fn tell_set(out: &Out, before: &str, set: Result<FeatureSet<'_>, Error<'_>>) {
    match set {
        Ok(set) => {
            out.part(before);
            tell_members(out, &set);
            drop(set);
        }
        Err(error) => tell_error(out, error),
    }
}
